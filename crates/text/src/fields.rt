// A double quote opens or closes quoting; fields are separated by commas outside quotes.
ghost use Rattle.std.specs.Prelude.{◌≡◌, ◌≤◌, ◌<◌, [], length, get_or, set};
ghost use Rattle.meaning.specs.Lines.{identifier, fields_of};
ghost use Rattle.text.specs.Places.{field_count, Notes, field_end, FieldAt};

// Where the identifier ends: at the first comma, or where the line does.
pub fn identifier_end(line: &[u8]) -> usize
    ensures { (result ≡ length (identifier line.now)) × (result ≤ length line.now) }
{
    line.iter().position(|b| *b == b',').unwrap_or(line.len())
}

// Notes where field k of a line ends, if there is room for it.
fn note(ends: &mut [usize], k: usize, at: usize)
    ensures { ends.new ≡ set ends.old k at }
{
    if k < ends.len() {
        ends[k] = at;
    }
}

// Notes where the fields of a line end, in one walk, and gives their number; 0 where the quotes are odd.
pub fn split(line: &[u8], ends: &mut [usize]) -> usize
    ensures { (result ≡ field_count line.now) × Notes line.now ends.new × (length ends.new ≡ length ends.old) }
{
    let mut quoted = false;
    let mut commas = 0;
    for (i, &b) in line.iter().enumerate() {
        match b {
            b',' if !quoted => {
                note(ends, commas, i);
                commas += 1;
            }
            b'"' => quoted = !quoted, // opens or closes quoting
            _ => {}
        }
    }
    note(ends, commas, line.len());
    if quoted { 0 } else { commas + 1 }
}

// How many fields a line has; 0 where its quotes are odd.
pub fn field_count(line: &[u8]) -> usize
    ensures { result ≡ field_count line.now }
{
    split(line, &mut [])
}

// Field k of a line whose fields' ends are noted.
pub fn noted_field<'a>(line: &'a [u8], ends: &[usize], k: usize) -> &'a [u8]
    requires { Notes line.now ends.now × (k < length (fields_of line.now)) × (k < length ends.now) }
    ensures { result.now ≡ get_or (fields_of line.now) k [] }
{
    if k == 0 {
        &line[..ends[0]]
    } else {
        &line[ends[k - 1] + 1..ends[k]]
    }
}

// Where the field that starts at `at` ends: at the next separator, or where the line does.
pub fn field_end(line: &[u8], at: usize) -> usize
    requires { at ≤ length line.now }
    ensures { (result ≡ field_end line.now at) × (at ≤ result) × (result ≤ length line.now) }
{
    let mut quoted = false;
    for (i, &b) in line[at..].iter().enumerate() {
        match b {
            b',' if !quoted => return at + i,
            b'"' => quoted = !quoted,
            _ => {}
        }
    }
    line.len()
}

// Where field k of a line starts, counted from 0, or the line's end where it has no such field.
pub fn field_start(line: &[u8], k: usize) -> usize
    ensures { FieldAt line.now k result }
{
    let mut at = 0;
    for _ in 0..k {
        let end = field_end(line, at);
        if end == line.len() {
            return end;
        }
        at = end + 1;
    }
    at
}

// Field k of a line, counted from 0, with its quotes; one that is not there is empty.
pub fn field(line: &[u8], k: usize) -> &[u8]
    ensures { result.now ≡ get_or (fields_of line.now) k [] }
{
    let at = field_start(line, k);
    &line[at..field_end(line, at)]
}
