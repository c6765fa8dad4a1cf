// The ticks of a case, eight lines each: the state and the row before, and what is due after. Each is tried by itself, from the state that it names.
ghost use Rattle.std.specs.Prelude.{◌≤◌, length};

use crate::lines::{Line, Mismatch, Reader};
use crate::room;
use tick_lane::Lane;
use wire::Circuit;

// As many ticks as there are.
pub(crate) fn ticks<'a>(lines: &mut Reader<'a>, circuit: &Circuit) -> Result<(), Mismatch<'a>>
    ensures { length lines.new.rest.now ≤ length lines.old.rest.now }
{
    while let Some(first) = lines.line_if(b'f') {
        tick(first, lines, circuit)?;
    }
    Ok(())
}

// One tick: its flags, cursors and row are read.
fn tick<'a>(first: Line<'a>, lines: &mut Reader<'a>, circuit: &Circuit) -> Result<(), Mismatch<'a>>
    ensures { length lines.new.rest.now ≤ length lines.old.rest.now }
{
    let counts = circuit.counts;
    let mut flags = [0; 128];
    let mut cursors = [0; 128];
    let mut row = [0; 128];
    first.read(b'f', &mut flags, counts.nodes)?;
    lines.line()?.read(b'k', &mut cursors, counts.cursors)?;
    lines.line()?.read(b'r', &mut row, counts.leaves)?;
    answers(
        lines,
        circuit,
        &row[..counts.leaves],
        &mut flags[..counts.nodes],
        &mut cursors[..counts.cursors],
    )
}

// The tick of this state and row, and the five lines that say what is due.
fn answers<'a>(
    lines: &mut Reader<'a>,
    circuit: &Circuit,
    row: &[u8],
    flags: &mut [u8],
    cursors: &mut [u32],
) -> Result<(), Mismatch<'a>>
    ensures { length lines.new.rest.now ≤ length lines.old.rest.now }
{
    let mut values = room::values();
    let mut statuses = [0; 128];
    let mut halts = [0; 128];
    let mut edges = [0; 128];
    let mut lane = Lane {
        flags,
        cursors,
        values: &mut values,
        statuses: &mut statuses,
        halts: &mut halts,
        edges: &mut edges,
    };
    let counts = circuit.counts;
    let first = lines.line()?;
    first.check(tick::tick(circuit, row, &mut lane).is_ok())?;
    first.holds(b's', lane.statuses, counts.nodes)?;
    lines.line()?.holds(b'h', lane.halts, counts.nodes)?;
    lines.line()?.holds(b'e', lane.edges, counts.leaves)?;
    lines.line()?.holds(b'g', lane.flags, counts.nodes)?;
    lines.line()?.holds(b'd', lane.cursors, counts.cursors)
}
