// The fields of a line, each put after what stands there.
ghost use Rattle.std.specs.Prelude.{◌≡◌, ◌+◌, ◌*◌, ◌≤◌, ◌++◌, map, length, take, get_or};
ghost use Rattle.list_text.specs.Line.{mark, marks, more, cursor_field, digit, edge_field, front, shown, refused_line};

use crate::{LINE_MOST, LINE_ROOM, TickLine};
use text::{append, append_decimal};

// A tick's line, at the front.
#[tactic(auto, unfolding(crate::specs::Line::tick_line))]
pub(crate) fn spell(line: &mut [u8], tick: &TickLine) -> usize
    requires room { LINE_ROOM ≤ length line.old }
    requires few { (length tick.now.statuses.now ≤ LINE_MOST) × (length tick.now.cursors.now ≤ LINE_MOST) × (length tick.now.edges.now ≤ LINE_MOST) }
    ensures text { take result line.new ≡ shown tick.now }
    ensures limit { result ≤ LINE_ROOM }
{
    let second = spell_front(line, tick);
    let joined = append_cursors(line, second, tick.cursors);
    let third = append(line, joined, b" ");
    let edged = append_edges(line, third, tick.edges);
    append(line, edged, b"\n")
}

// The number and the marks, each with the space after it.
#[tactic(auto, unfolding(crate::specs::Line::front))]
fn spell_front(line: &mut [u8], tick: &TickLine) -> usize
    requires { length tick.now.statuses.now + 22 ≤ length line.old }
    ensures text { take result line.new ≡ front tick.now.number tick.now.statuses.now tick.now.halts.now }
    ensures limit { result ≤ length tick.now.statuses.now + 22 }
{
    let numbered = append_decimal(line, 0, tick.number);
    let first = append(line, numbered, b" ");
    let marked = append_marks(line, first, tick.statuses, tick.halts);
    append(line, marked, b" ")
}

// `refused NO at PLACE`, at the front.
#[tactic(auto, unfolding(crate::specs::Line::refused_line))]
pub(crate) fn spell_refused(line: &mut [u8], number: u64, place: u64) -> usize
    requires { 53 ≤ length line.old }
    ensures text { take result line.new ≡ refused_line number place }
    ensures limit { result ≤ 53 }
{
    let refused = append(line, 0, b"refused ");
    let numbered = append_decimal(line, refused, number);
    let at = append(line, numbered, b" at ");
    let placed = append_decimal(line, at, place);
    append(line, placed, b"\n")
}

// One character a node.
#[tactic(auto, unfolding(crate::specs::Line::marks))]
fn append_marks(line: &mut [u8], at: usize, statuses: &[u8], halts: &[u8]) -> usize
    requires { at + length statuses.now ≤ length line.old }
    ensures text { take result line.new ≡ take at line.old ++ marks statuses.now halts.now }
    ensures next { result ≡ at + length statuses.now }
{
    for (i, status) in statuses.iter().enumerate() {
        line[at + i] = mark_of(*status, entry(halts, i));
    }
    at + statuses.len()
}

#[tactic(auto, unfolding(crate::specs::Line::mark))]
fn mark_of(status: u8, halt: u8) -> u8
    ensures { result ≡ mark status halt }
{
    match (status, halt) {
        (0, _) => b'S',
        (1, _) => b'F',
        (2, _) => b'R',
        (_, 0) => b'-',
        _ => b'h',
    }
}

// An entry, or 0 where there is none.
fn entry(list: &[u8], i: usize) -> u8
    ensures { result ≡ get_or list.now i 0 }
{
    list.get(i).copied().unwrap_or(0)
}

// The cursors, joined by commas.
#[tactic(auto, unfolding(crate::specs::Line::cursor_field))]
fn append_cursors(line: &mut [u8], at: usize, cursors: &[u32]) -> usize
    requires { at + 21 * length cursors.now + 1 ≤ length line.old }
    ensures text { take result line.new ≡ take at line.old ++ cursor_field cursors.now }
    ensures limit { result ≤ at + 21 * length cursors.now + 1 }
{
    let Some((first, others)) = cursors.split_first() else {
        return append(line, at, b"-");
    };
    let end = append_decimal(line, at, u64::from(*first));
    append_more(line, end, others)
}

// A comma and a number for each cursor.
#[tactic(auto, unfolding(crate::specs::Line::more))]
fn append_more(line: &mut [u8], at: usize, cursors: &[u32]) -> usize
    requires { at + 21 * length cursors.now ≤ length line.old }
    ensures text { take result line.new ≡ take at line.old ++ more cursors.now }
    ensures limit { result ≤ at + 21 * length cursors.now }
{
    let mut end = at;
    for cursor in cursors {
        let parted = append(line, end, b",");
        end = append_decimal(line, parted, u64::from(*cursor));
    }
    end
}

// One digit a leaf.
#[tactic(auto, unfolding(crate::specs::Line::edge_field))]
fn append_edges(line: &mut [u8], at: usize, edges: &[u8]) -> usize
    requires { at + length edges.now + 1 ≤ length line.old }
    ensures text { take result line.new ≡ take at line.old ++ edge_field edges.now }
    ensures limit { result ≤ at + length edges.now + 1 }
{
    if edges.is_empty() {
        return append(line, at, b"-");
    }
    append_digits(line, at, edges)
}

fn append_digits(line: &mut [u8], at: usize, edges: &[u8]) -> usize
    requires { at + length edges.now ≤ length line.old }
    ensures text { take result line.new ≡ take at line.old ++ map digit edges.now }
    ensures next { result ≡ at + length edges.now }
{
    for (i, edge) in edges.iter().enumerate() {
        line[at + i] = b'0' + *edge % 10;
    }
    at + edges.len()
}
