// The one table: for each kind of record, its fields and what else the rules ask of it. Document 002's field tables decide it; a law
// of proofs/ computes that it says what the meaning's table says.
ghost use Rattle.std.specs.Prelude.{◌≡◌};

// What a kind is: its number, how many fields it has, the places of START_DATE and END_DATE, of the fields of its key, the numbers of
// the kinds it refers to, and the places of the fields by which it does. Places count from 1; 0 is none.
#[derive(Clone, Copy)]
pub struct Layout {
    pub number: u64,
    pub count: usize,
    pub start: usize,
    pub end: usize,
    pub key: [usize; 3],
    pub to: [u64; 2],
    pub by: [usize; 2],
}

// A field is the sum of its form, its width times W, its decimals times P, and its status; a key's letter stands in the place of a width.
const W: u32 = 16;

const P: u32 = 4096;

// Mandatory; conditional or optional.
const MAN: u32 = 65536;

const MAY: u32 = 0;

// N w; N w that is at least 1; N w.d; date; time; T w; the codes; four digits, a letter, nine digits.
const N: u32 = 0;

const N1: u32 = 1;

const ND: u32 = 2;

const DATE: u32 = 3;

const TIME: u32 = 4;

const T: u32 = 5;

const CHANGE_TYPE: u32 = 6;

const XREF_TYPE: u32 = 7;

const FILE_TYPE: u32 = 8;

const KEY: u32 = 9;

// The letters of XREF_KEY and LPI_KEY.
const LETTER_X: u32 = 88;

const LETTER_L: u32 = 76;

// Header.
#[derive(Drop)]
pub struct Header {}

impl Header {
    pub const LAYOUT: Layout = Layout {
        number: 10,
        count: 9,
        start: 0,
        end: 0,
        key: [0, 0, 0],
        to: [0, 0],
        by: [0, 0],
    };

    pub const FIELDS: [u32; 9] = [
        N + 2 * W + MAN, // RECORD_IDENTIFIER
        T + 40 * W + MAN, // CUSTODIAN_NAME
        N + 4 * W + MAN, // CUSTODIAN_CODE
        DATE + MAN, // PROCESS_DATE
        N + 2 * W + MAN, // VOLUME_NUMBER
        DATE + MAN, // ENTRY_DATE
        TIME + MAN, // TIME_STAMP
        ND + 2 * W + P + MAN, // DTF_VERSION
        FILE_TYPE + MAN, // FILE_TYPE
    ];
}

// Street.
#[derive(Drop)]
pub struct Street {}

impl Street {
    pub const LAYOUT: Layout = Layout {
        number: 11,
        count: 17,
        start: 12,
        end: 13,
        key: [4, 0, 0],
        to: [0, 0],
        by: [0, 0],
    };

    pub fn number() -> u64
        ensures { result ≡ 11 }
    {
        Self::LAYOUT.number
    }

    pub const FIELDS: [u32; 17] = [
        N + 2 * W + MAN, // RECORD_IDENTIFIER
        CHANGE_TYPE + MAN, // CHANGE_TYPE
        N + 16 * W + MAN, // PRO_ORDER
        N1 + 8 * W + MAN, // USRN
        N + W + MAN, // RECORD_TYPE
        N + 4 * W + MAN, // CUSTODIAN_CODE
        N + W + MAY, // STATE
        DATE + MAY, // STATE_DATE
        N + W + MAY, // STREET_CLASSIFICATION
        DATE + MAN, // ENTRY_DATE
        DATE + MAN, // LAST_UPDATE_DATE
        DATE + MAN, // START_DATE
        DATE + MAY, // END_DATE
        ND + 7 * W + 2 * P + MAN, // START_X
        ND + 7 * W + 2 * P + MAN, // START_Y
        ND + 7 * W + 2 * P + MAN, // END_X
        ND + 7 * W + 2 * P + MAN, // END_Y
    ];
}

// Street cross reference.
#[derive(Drop)]
pub struct StreetXref {}

impl StreetXref {
    pub const LAYOUT: Layout = Layout {
        number: 12,
        count: 10,
        start: 8,
        end: 9,
        key: [4, 5, 6],
        to: [11, 0],
        by: [4, 0],
    };

    pub const FIELDS: [u32; 10] = [
        N + 2 * W + MAN, // RECORD_IDENTIFIER
        CHANGE_TYPE + MAN, // CHANGE_TYPE
        N + 16 * W + MAN, // PRO_ORDER
        N1 + 8 * W + MAN, // USRN
        XREF_TYPE + MAN, // XREF_TYPE
        N + 14 * W + MAN, // XREF_ID
        DATE + MAN, // ENTRY_DATE
        DATE + MAN, // START_DATE
        DATE + MAY, // END_DATE
        DATE + MAN, // LAST_UPDATE_DATE
    ];
}

// Basic land and property unit.
#[derive(Drop)]
pub struct Blpu {}

impl Blpu {
    pub const LAYOUT: Layout = Layout {
        number: 21,
        count: 16,
        start: 13,
        end: 14,
        key: [4, 0, 0],
        to: [21, 0],
        by: [8, 0],
    };

    pub fn number() -> u64
        ensures { result ≡ 21 }
    {
        Self::LAYOUT.number
    }

    pub const FIELDS: [u32; 16] = [
        N + 2 * W + MAN, // RECORD_IDENTIFIER
        CHANGE_TYPE + MAN, // CHANGE_TYPE
        N + 16 * W + MAN, // PRO_ORDER
        N1 + 12 * W + MAN, // UPRN
        N + W + MAN, // LOGICAL_STATUS
        N + W + MAY, // BLPU_STATE
        DATE + MAY, // BLPU_STATE_DATE
        N1 + 12 * W + MAY, // PARENT_UPRN
        ND + 7 * W + 2 * P + MAN, // X_COORDINATE
        ND + 7 * W + 2 * P + MAN, // Y_COORDINATE
        N + W + MAN, // RPC
        N + 4 * W + MAN, // CUSTODIAN_CODE
        DATE + MAN, // START_DATE
        DATE + MAY, // END_DATE
        DATE + MAN, // LAST_UPDATE_DATE
        DATE + MAN, // ENTRY_DATE
    ];
}

// Application cross reference.
#[derive(Drop)]
pub struct AppXref {}

impl AppXref {
    pub const LAYOUT: Layout = Layout {
        number: 23,
        count: 11,
        start: 6,
        end: 9,
        key: [5, 0, 0],
        to: [21, 0],
        by: [4, 0],
    };

    pub const FIELDS: [u32; 11] = [
        N + 2 * W + MAN, // RECORD_IDENTIFIER
        CHANGE_TYPE + MAN, // CHANGE_TYPE
        N + 16 * W + MAN, // PRO_ORDER
        N1 + 12 * W + MAN, // UPRN
        KEY + LETTER_X * W + MAN, // XREF_KEY
        DATE + MAN, // START_DATE
        DATE + MAN, // LAST_UPDATE_DATE
        DATE + MAN, // ENTRY_DATE
        DATE + MAY, // END_DATE
        T + 20 * W + MAN, // CROSS_REFERENCE
        T + 6 * W + MAN, // SOURCE
    ];
}

// Land and property identifier.
#[derive(Drop)]
pub struct Lpi {}

impl Lpi {
    pub const LAYOUT: Layout = Layout {
        number: 24,
        count: 28,
        start: 8,
        end: 9,
        key: [5, 0, 0],
        to: [21, 11],
        by: [4, 22],
    };

    pub const FIELDS: [u32; 28] = [
        N + 2 * W + MAN, // RECORD_IDENTIFIER
        CHANGE_TYPE + MAN, // CHANGE_TYPE
        N + 16 * W + MAN, // PRO_ORDER
        N1 + 12 * W + MAN, // UPRN
        KEY + LETTER_L * W + MAN, // LPI_KEY
        T + 3 * W + MAN, // LANGUAGE
        N + W + MAN, // LOGICAL_STATUS
        DATE + MAN, // START_DATE
        DATE + MAY, // END_DATE
        DATE + MAN, // ENTRY_DATE
        DATE + MAN, // LAST_UPDATE_DATE
        N + 4 * W + MAY, // SAO_START_NUMBER
        T + W + MAY, // SAO_START_SUFFIX
        N + 4 * W + MAY, // SAO_END_NUMBER
        T + W + MAY, // SAO_END_SUFFIX
        T + 90 * W + MAY, // SAO_TEXT
        N + 4 * W + MAY, // PAO_START_NUMBER
        T + W + MAY, // PAO_START_SUFFIX
        N + 4 * W + MAY, // PAO_END_NUMBER
        T + W + MAY, // PAO_END_SUFFIX
        T + 90 * W + MAY, // PAO_TEXT
        N1 + 8 * W + MAN, // USRN
        T + 35 * W + MAY, // SUB_LOCALITY
        ND + 2 * W + P + MAY, // LEVEL
        T + W + MAN, // POSTALLY_ADDRESSABLE
        T + 8 * W + MAY, // POSTCODE
        T + 30 * W + MAY, // POST_TOWN
        T + W + MAY, // OFFICIAL_FLAG
    ];
}

// Gazetteer metadata.
#[derive(Drop)]
pub struct Metadata {}

impl Metadata {
    pub const LAYOUT: Layout = Layout {
        number: 29,
        count: 15,
        start: 0,
        end: 0,
        key: [0, 0, 0],
        to: [0, 0],
        by: [0, 0],
    };

    pub const FIELDS: [u32; 15] = [
        N + 2 * W + MAN, // RECORD_IDENTIFIER
        T + 60 * W + MAN, // GAZ_NAME
        T + 60 * W + MAN, // GAZ_SCOPE
        T + 60 * W + MAN, // TER_OF_USE
        T + 60 * W + MAN, // GAZ_OWNER
        T + 40 * W + MAN, // CUSTODIAN_NAME
        N + 4 * W + MAN, // CUSTODIAN_CODE
        T + 40 * W + MAN, // CO_ORD_SYSTEM
        T + 10 * W + MAN, // CO_ORD_UNIT
        DATE + MAN, // META_DATE
        T + 60 * W + MAN, // CLASS_SCHEME
        T + 40 * W + MAN, // STATE_CODE_SCHEME
        DATE + MAN, // GAZ_DATE
        T + 3 * W + MAN, // LANGUAGE
        T + 30 * W + MAN, // CHARACTER_SET
    ];
}

// Trailer.
#[derive(Drop)]
pub struct Trailer {}

impl Trailer {
    pub const LAYOUT: Layout = Layout {
        number: 99,
        count: 5,
        start: 0,
        end: 0,
        key: [0, 0, 0],
        to: [0, 0],
        by: [0, 0],
    };

    pub const FIELDS: [u32; 5] = [
        N + 2 * W + MAN, // RECORD_IDENTIFIER
        N + 2 * W + MAN, // NEXT_VOLUME_NUMBER
        N + 12 * W + MAN, // RECORD_COUNT
        DATE + MAN, // ENTRY_DATE
        TIME + MAN, // TIME_STAMP
    ];
}
