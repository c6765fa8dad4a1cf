// Refusals as text: a line such as `refused 4 at 0: Sleep is never lowered`, written into a lent buffer.
#![tactic(auto)]

ghost use Rattle.std.specs.Prelude.{◌≡◌, ◌+◌, ◌≤◌, ◌++◌, length, take};
ghost use Rattle.text.specs.Text.{placed};
ghost use Rattle.refusal.specs.Line.{heading, name_of, line_of, sentence};

use text::{append, append_decimal, put_line};
use tree_kinds::row_of;
use tree_record::{Cause, Refusal};

// Writes a refusal's line, with no line end, at the front of a buffer and answers the line's length. A buffer that is shorter than that
// stays as it was, and so do the bytes past the line.
pub fn write_refusal(refusal: Refusal, buffer: &mut [u8]) -> usize
    ensures value { result ≡ length (line_of refusal) }
    ensures buffer_after { buffer.new ≡ placed (line_of refusal) buffer.old }
{
    let mut line = [0u8; 128];
    let length = spell(&mut line, refusal);
    put_line(buffer, &line[..length])
}

// The whole line, at the front.
#[tactic(auto, unfolding(crate::specs::Line::line_of))]
fn spell(line: &mut [u8], refusal: Refusal) -> usize
    requires { 106 ≤ length line.old }
    ensures { (take result line.new ≡ line_of refusal) × (result ≤ 106) }
{
    let Refusal { cause, place } = refusal;
    let headed = write_heading(line, u64::from(cause.number()), place as u64);
    let named = write_name(line, headed, cause.kind());
    append(line, named, words_of(cause).as_bytes())
}

// `refused NO at PLACE: `, at the front.
#[tactic(auto, unfolding(crate::specs::Line::heading))]
fn write_heading(line: &mut [u8], number: u64, place: u64) -> usize
    requires { 54 ≤ length line.old }
    ensures { (take result line.new ≡ heading number place) × (result ≤ 54) }
{
    let refused = append(line, 0, b"refused ");
    let numbered = append_decimal(line, refused, number);
    let at = append(line, numbered, b" at ");
    let placed = append_decimal(line, at, place);
    append(line, placed, b": ")
}

// The name of a kind, if it has one.
fn write_name(line: &mut [u8], at: usize, kind: u8) -> usize
    requires { at + 23 ≤ length line.old }
    ensures { (take result line.new ≡ take at line.old ++ name_of kind) × (result ≤ at + 23) }
{
    match row_of(u16::from(kind)) {
        Some(row) => append(line, at, row.name.as_bytes()),
        None => at,
    }
}

fn words_of(cause: Cause) -> &'static str
    ensures { result.now ≡ sentence cause }
{
    match cause {
        Cause::Truncated => "the bytes end inside a record",
        Cause::BadLength => "a record's length is wrong",
        Cause::BadKind => "there is no such kind",
        Cause::Unsupported(_) => " is never lowered",
        Cause::EmptyComposite => "a composite has no children",
        Cause::TooDeep => "there are more than 16 levels",
        Cause::TooManyNodes => "there are more than 128 nodes",
        Cause::Trailing => "bytes follow the tree",
        Cause::NoOpRoom => "the op slots are too few",
        Cause::NoTermRoom => "the term slots are too few",
        Cause::ShortRoom => "the room lent is too short",
    }
}
