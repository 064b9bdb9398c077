// One line of a change: identifier, CHANGE_TYPE, number, content, CR LF.
ghost use Rattle.std.specs.Prelude.{◌≡◌, ◌+◌, ◌≤◌, length};
ghost use Rattle.theory.specs.Decimal.{width};
ghost use Rattle.meaning.specs.Kinds.{ident};
ghost use Rattle.text.specs.Front.{in_front};
ghost use Rattle.layout.specs.Meant.{kind_meant};
ghost use Rattle.volume.specs.Meant.{change_meant};
ghost use Rattle.writer.specs.Lines.{line_front, line_back, line_bytes};

use crate::changes::letter;
use layout::kinds::Kind;
use layout::rules::layout;
use text::put;
use volume::lines::Change;

// The identifier, which is the number of the kind.
fn put_identifier(out: &mut [u8], kind: Kind) -> usize
    requires { 2 ≤ length out.old }
    ensures { (result ≡ 2) × (out.new ≡ in_front (ident (kind_meant kind)) out.old) }
{
    let of = layout(kind);
    put::number(&mut *out, of.number)
}

// What stands before the number: identifier and CHANGE_TYPE, each with its comma.
fn put_front(out: &mut [u8], kind: Kind, change: Change) -> usize
    requires { 7 ≤ length out.old }
    ensures { (result ≡ 7) × (out.new ≡ in_front (line_front (kind_meant kind) (change_meant change)) out.old) }
{
    let letter = letter(change);
    let at = put_identifier(&mut *out, kind);
    at + put::bytes(&mut out[at..], &[b',', b'"', letter, b'"', b','])
}

// What stands after it: a comma, the content, CR LF.
fn put_back(out: &mut [u8], content: &[u8]) -> usize
    requires { 3 + length content.now ≤ length out.old }
    ensures { (result ≡ 3 + length content.now) × (out.new ≡ in_front (line_back content.now) out.old) }
{
    let at = put::bytes(&mut *out, b",");
    let end = at + put::bytes(&mut out[at..], content);
    end + put::bytes(&mut out[end..], b"\r\n")
}

// The whole line, into the front of the output.
pub fn put_line(out: &mut [u8], kind: Kind, change: Change, number: u64, content: &[u8]) -> usize
    requires { 10 + width number + length content.now ≤ length out.old }
    ensures { (result ≡ length (line_bytes number (record { op = change_meant change; rec = record { kind = kind_meant kind; content = content.now } })))
        × (out.new ≡ in_front (line_bytes number (record { op = change_meant change; rec = record { kind = kind_meant kind; content = content.now } })) out.old) }
{
    let at = put_front(&mut *out, kind, change);
    let end = at + put::number(&mut out[at..], number);
    end + put_back(&mut out[end..], content)
}
