// The numbers of an answer, comma separated, with CR LF.
ghost use Rattle.std.specs.Prelude.{◌≡◌, ◌+◌, ◌≤◌, length};
ghost use Rattle.meaning.specs.Program.{print_numbers};
ghost use Rattle.text.specs.Front.{in_front};
ghost use Rattle.answers.specs.Meant.{numbers_meant};
ghost use Rattle.printed.specs.Printed.{most_of_numbers, number_then, three_then};

use answers::numbers::Answer;
use text::put;

// A number, and what stands after it.
fn put_number(out: &mut [u8], n: u64, mark: &[u8]) -> usize
    requires { 20 + length mark.now ≤ length out.old }
    ensures { (result ≡ length (number_then n mark.now)) × (result ≤ 20 + length mark.now)
        × (out.new ≡ in_front (number_then n mark.now) out.old) }
{
    let at = put::number(&mut *out, n);
    at + put::bytes(&mut out[at..], mark)
}

// Three numbers with commas, and what stands after them.
fn put_three(out: &mut [u8], a: u64, b: u64, c: u64, mark: &[u8]) -> usize
    requires { 62 + length mark.now ≤ length out.old }
    ensures { (result ≡ length (three_then a b c mark.now)) × (result ≤ 62 + length mark.now)
        × (out.new ≡ in_front (three_then a b c mark.now) out.old) }
{
    let at = put_number(&mut *out, a, b",");
    let end = at + put_number(&mut out[at..], b, b",");
    end + put_number(&mut out[end..], c, mark)
}

// The most bytes of them all: none has more than 20 digits, and after each stands a comma, after the last CR LF.
pub const MOST_OF_NUMBERS: usize = 1 + 21 * Answer::NUMBERS;

// All of them.
pub fn put_numbers(out: &mut [u8], a: Answer) -> usize
    requires { most_of_numbers ≤ length out.old }
    ensures { (result ≡ length (print_numbers (numbers_meant a))) × (result ≤ most_of_numbers) × (out.new ≡ in_front (print_numbers (numbers_meant a)) out.old) }
{
    let at = put_three(&mut *out, a.code, a.line, a.field, b",");
    let end = at + put_three(&mut out[at..], a.inserts, a.updates, a.deletes, b",");
    end + put_number(&mut out[end..], a.place, b"\r\n")
}
