// The five lines of an accepted tree: its nodes, its leaf, cursor and report lists, and its counts, against what the crates tree and plan answer
// and against what compile left in the circuit's storage.
ghost use Rattle.std.specs.Prelude.{◌≤◌, length};

use crate::lines::{Line, Mismatch, Reader, short};
use plan::Plan;
use wire::{Circuit, Counts, Nums};

pub(crate) fn lists<'a>(
    lines: &mut Reader<'a>,
    bytes: &[u8],
    circuit: &Circuit,
) -> Result<(), Mismatch<'a>>
    ensures { length lines.new.rest.now ≤ length lines.old.rest.now }
{
    let first = lines.line()?;
    let mut kinds = [0; 128];
    let mut children = [0; 128];
    let Ok(nodes) = tree::flatten(bytes, &mut kinds, &mut children) else {
        return Err(Mismatch::Line(first));
    };
    let (Some(kinds), Some(children)) = (kinds.get(..nodes), children.get(..nodes)) else {
        return Err(Mismatch::Line(first));
    };
    nodes_agree(first, kinds, children)?;
    plan_agrees(lines, kinds, children, circuit)
}

// Each node's kind and child count.
fn nodes_agree<'a>(line: Line<'a>, kinds: &[u8], children: &[u16]) -> Result<(), Mismatch<'a>> {
    let mut words = line.words(b'n')?;
    for (kind, count) in kinds.iter().zip(children) {
        line.check(words.number() == Some(u32::from(*kind)))?;
        line.check(words.number() == Some(u32::from(*count)))?;
    }
    line.check(words.rest.is_empty())
}

// The plan's lists, which the circuit has too, and the counts.
fn plan_agrees<'a>(
    lines: &mut Reader<'a>,
    kinds: &[u8],
    children: &[u16],
    circuit: &Circuit,
) -> Result<(), Mismatch<'a>>
    ensures { length lines.new.rest.now ≤ length lines.old.rest.now }
{
    let counts = circuit.counts;
    let mut list = [0; 128];
    let leaves = plan::leaf_list(kinds, &mut list);
    let line = lines.line()?;
    line.holds(b'l', &list, leaves)?;
    line.holds(b'l', from_on(circuit.nums, Nums::LEAVES), counts.leaves)?;
    let cursors = plan::cursor_list(kinds, &mut list);
    let line = lines.line()?;
    line.holds(b'm', &list, cursors)?;
    line.holds(b'm', from_on(circuit.nums, Nums::CURSORS), counts.cursors)?;
    let reported = plan::report_order(children, &mut list);
    let line = lines.line()?;
    line.holds(b'p', &list, reported)?;
    line.holds(b'p', from_on(circuit.nums, Nums::REPORT), counts.nodes)?;
    let plan = Plan {
        nodes: kinds.len(),
        cursors,
        leaves,
    };
    counts_agree(lines.line()?, counts, plan)
}

// The numbers from a position on.
fn from_on(nums: &[u32], at: usize) -> &[u32] {
    nums.get(at..).unwrap_or(&[])
}

// All six counts of the circuit, and the plan's cells.
fn counts_agree<'a>(line: Line<'a>, counts: Counts, plan: Plan) -> Result<(), Mismatch<'a>> {
    line.check(plan.cell_count() == counts.cells)?;
    let values = [
        short(counts.nodes),
        short(counts.cursors),
        short(counts.leaves),
        short(counts.cells),
        short(counts.ops),
        short(counts.terms),
    ];
    line.holds(b'c', &values, values.len())
}
