// The reader of a record.
ghost use Rattle.std.specs.Prelude.{◌≡◌, ◌+◌, ◌≤◌, ◌<◌, ◌==◌, if◌then◌else◌, length};
ghost use Rattle.tree_kinds.specs.Kinds.{row_of};
ghost use Rattle.tree_record.specs.Record.{u16_at, row_record, record_at};

use crate::refusal::Cause;
use tree_kinds::{Family, row_of};

// The node that a record holds: its kind, how many children it has, and the position of the next record. The kind stays the number that the
// record holds, as the slots that are lent hold numbers.
#[derive(Clone, Copy)]
pub struct Node {
    pub kind: u8,
    pub count: u16,
    pub next: usize,
}

// The node whose record stands at a position, or why there is none.
#[tactic(auto, unfolding(crate::specs::Record::record_at))]
pub fn read_record(bytes: &[u8], at: usize) -> Result<Node, Cause>
    ensures { result ≡ record_at bytes.now at }
{
    let left = bytes.len().saturating_sub(at);
    if left < 2 {
        return Err(Cause::Truncated);
    }
    let size = u16_at(bytes, at);
    if size < 2 {
        return Err(Cause::BadLength);
    }
    if left - 2 < usize::from(size) {
        return Err(Cause::Truncated);
    }
    by_row(bytes, at, size)
}

// A record that is all there, by the row of its kind.
#[tactic(auto, using(tree_kinds::proofs::Rows::known, tree_kinds::proofs::Rows::composite_length))]
fn by_row(bytes: &[u8], at: usize, size: u16) -> Result<Node, Cause>
    requires long { 2 ≤ size }
    requires inside { at + 2 + size ≤ length bytes.now }
    ensures { let kind = u16_at bytes.now (at + 2) in result ≡ row_record (row_of kind) bytes.now at size kind }
{
    let kind = u16_at(bytes, at + 2);
    let row = row_of(kind).ok_or(Cause::BadKind)?;
    let kind = kind as u8;
    let count = match row.family {
        Family::Never => return Err(Cause::Unsupported(kind)),
        _ if size != row.size => return Err(Cause::BadLength),
        Family::Leaf => 0,
        Family::Decorator => 1,
        Family::Composite => child_count(bytes, at + 4)?,
    };
    Ok(Node {
        kind,
        count,
        next: at + 2 + usize::from(size),
    })
}

// A composite's child count, which is not 0.
fn child_count(bytes: &[u8], at: usize) -> Result<u16, Cause>
    requires { at + 1 < length bytes.now }
    ensures { result ≡ (if u16_at bytes.now at == 0 then Err Cause.EmptyComposite else Ok (u16_at bytes.now at)) }
{
    match u16_at(bytes, at) {
        0 => Err(Cause::EmptyComposite),
        count => Ok(count),
    }
}

// The two-byte number at a position.
fn u16_at(bytes: &[u8], at: usize) -> u16
    requires { at + 1 < length bytes.now }
    ensures { result ≡ u16_at bytes.now at }
{
    u16::from_le_bytes([bytes[at], bytes[at + 1]])
}
