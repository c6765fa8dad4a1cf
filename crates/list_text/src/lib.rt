// What the listing program reads and prints: outer records, and a tick's line, a refusal's and that of a bad record, each written into a
// lent buffer.
#![tactic(auto)]

mod fields;
mod outer;

ghost use Rattle.std.specs.Prelude.{◌≡◌, length};
ghost use Rattle.text.specs.Text.{placed};
ghost use Rattle.list_text.specs.Line.{listable, line_in, refused_line, bad_line};

use fields::{spell, spell_refused};
pub use outer::{Outer, outer_at};
use text::put_line;

// Nodes, and so cursors and leaves, of a line at most.
pub const LINE_MOST: usize = 128;

// Room that any line fits into.
pub const LINE_ROOM: usize = 3072;

// What a tick's line shows: the tick's number, each node's status and whether it was halted, the cursors, and each leaf's edge.
#[derive(Clone, Copy)]
pub struct TickLine<'a> {
    pub number: u64,
    pub statuses: &'a [u8],
    pub halts: &'a [u8],
    pub cursors: &'a [u32],
    pub edges: &'a [u8],
}

impl TickLine<'_> {
    fn is_listable(&self) -> bool
        ensures { result ≡ listable self.now.statuses.now self.now.cursors.now self.now.edges.now }
    {
        self.statuses.len() <= LINE_MOST
            && self.cursors.len() <= LINE_MOST
            && self.edges.len() <= LINE_MOST
    }
}

// Writes a tick's line, its line feed too, at the front of a buffer and answers the line's length. A buffer that is shorter than that stays as it
// was, and so do the bytes past the line. More than 128 nodes, cursors or leaves have no line.
#[tactic(auto, unfolding(crate::specs::Line::line_of))]
pub fn write_line(out: &mut [u8], tick: &TickLine) -> usize
    ensures value { result ≡ length (line_in tick.now) }
    ensures out_after { out.new ≡ placed (line_in tick.now) out.old }
{
    if !tick.is_listable() {
        return 0;
    }
    let mut line = [0; LINE_ROOM];
    let length = spell(&mut line, tick);
    put_line(out, &line[..length])
}

// Writes `refused NO at PLACE` in the same way.
pub fn write_refused(out: &mut [u8], number: u64, place: u64) -> usize
    ensures value { result ≡ length (refused_line number place) }
    ensures out_after { out.new ≡ placed (refused_line number place) out.old }
{
    let mut line = [0; 64];
    let length = spell_refused(&mut line, number, place);
    put_line(out, &line[..length])
}

// Writes `bad record` in the same way.
pub fn write_bad(out: &mut [u8]) -> usize
    ensures value { result ≡ length bad_line }
    ensures out_after { out.new ≡ placed bad_line out.old }
{
    put_line(out, b"bad record\n")
}
