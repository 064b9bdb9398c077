#![tactic(auto)]

// Find hands back the held line of a street or BLPU, without CR LF, as a part of the holding.
ghost use Rattle.std.specs.Prelude.{◌≡◌, [], ◌∷◌, ◌≤◌, IfErr, length};
ghost use Rattle.base.specs.Lists.{some?};
ghost use Rattle.meaning.specs.Kinds.{numbered_among};
ghost use Rattle.meaning.specs.Table.{enquiries, scottish};
ghost use Rattle.meaning.specs.Holding.{read_holding, most_records};
ghost use Rattle.meaning.specs.Enquiries.{held_at, held_part, find};
ghost use Rattle.keys.specs.Numbers.{key_list};
ghost use Rattle.places.specs.Places.{says};
ghost use Rattle.places.specs.Ordered.{Ordered};
ghost use Rattle.holding.specs.Read.{records_of};
ghost use Rattle.enquiries.specs.Finding.{found_said};
ghost use Rattle.enquiries.specs.Handed.{Handed};
ghost use Rattle.find.specs.Found.{line_found, Enquired, OpenedAs};

use answers::codes::Code;
use answers::refusal::Refusal;
use enquiries::finding::{Part, Side, line_found};
use enquiries::hand::hand;
use holding::read::{read_holding, unsound};
use keys::Key;
use layout::limits::Holding;
use layout::records::{Blpu, Street};
use places::search::{place, stands};

// Whether an enquiry may name the kind of that number.
pub fn is_enquired(kind: u64) -> bool
    ensures { result ≡ some? (numbered_among enquiries kind) }
{
    kind == Street::number() || kind == Blpu::number()
}

// The key of the record of that kind and number, where the key is one number.
pub fn asked_key(kind: u64, number: u64) -> Key
    ensures { key_list result ≡ kind ∷ number ∷ 0 ∷ 0 ∷ [] }
{
    Key {
        kind,
        first: number,
        second: 0,
        third: 0,
    }
}

// Reads the holding for an enquiry, and says how many records it has: 15 for a kind that none may name, then 14.
pub fn open_holding(
    holding: &[u8],
    starts: &mut [u64],
    tags: &mut [u64],
    kind: u64,
) -> Result<usize, Refusal>
    requires { (most_records ≤ length starts.old) × (most_records ≤ length tags.old) }
    ensures { OpenedAs holding.now starts.new tags.new kind result }
{
    if !is_enquired(kind) {
        return Err(Refusal::alone(Code::KindNotAsked));
    }
    let mut counts = [0u16; Holding::MOST_LINES];
    read_holding(holding, starts, tags, &mut counts).map_err(unsound)
}

// The line of the record with that key, counted from 1.
pub fn line_of(
    holding: &[u8],
    starts: &[u64],
    tags: &[u64],
    count: usize,
    key: Key,
) -> Option<usize>
    requires { Ordered holding.now holding.now starts.now tags.now count × (count ≤ most_records) }
    ensures { result ≡ line_found (key_list key) (says holding.now holding.now starts.now count) }
{
    let i = place(holding, holding, starts, tags, count, key);
    stands(holding, holding, starts, tags, count, i, key).then_some(i + 1)
}

// The held line of the record of that kind and number, in a sound holding that was read; 11 where none is held. A refusal
// names no byte.
pub fn held_line(
    holding: &[u8],
    starts: &[u64],
    tags: &[u64],
    count: usize,
    kind: u64,
    number: u64,
) -> Result<Part, Refusal>
    requires { Enquired holding.now starts.now tags.now count kind }
    ensures { (found_said result ≡ held_part holding.now (held_at scottish (kind ∷ number ∷ []) 0 (records_of (read_holding scottish holding.now)))) × IfErr result (λ refusal. refusal.place ≡ 0) }
{
    let line = line_of(holding, starts, tags, count, asked_key(kind, number)).ok_or(Refusal::alone(
        Code::KeyAbsent,
    ))?;
    Ok(line_found(holding, line as u64, Side::Holding))
}

// Where the line of the record of that kind and number stands: 15, then 14, then 11. A refusal names no byte.
pub fn find_line(holding: &[u8], kind: u64, number: u64) -> Result<Part, Refusal>
    ensures { (found_said result ≡ find scottish holding.now kind number) × IfErr result (λ refusal. refusal.place ≡ 0) }
{
    // Asked before the arrays are made, though `open_holding` asks too: they are cleared, which costs far more than this refusal.
    if !is_enquired(kind) {
        return Err(Refusal::alone(Code::KindNotAsked));
    }
    let mut starts = [0u64; Holding::MOST_LINES];
    let mut tags = [0u64; Holding::MOST_LINES];
    let count = open_holding(holding, &mut starts, &mut tags, kind)?;
    held_line(holding, &starts, &tags, count, kind, number)
}

// The line of the record of that kind and number.
pub fn find<'a>(holding: &'a [u8], kind: u64, number: u64, answer: &mut [u64; 3]) -> &'a [u8]
    ensures { Handed (find scottish holding.now kind number) holding.entry result answer.new }
{
    hand(holding, find_line(holding, kind, number), answer)
}
