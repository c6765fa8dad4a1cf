// The leaf rows, as they come.
ghost use Rattle.std.specs.Prelude.{◌≡◌, ◌<◌, ◌≤◌, replicate, length, slice_range, OnOk, IfOk, MatchOption, IfSome};
ghost use Rattle.exact.specs.Whole.{zero32};
ghost use Rattle.tick_check.specs.Check.{stored_in};
ghost use Rattle.list_text.specs.declared.outer.Outer.TheVariants as is;
ghost use Rattle.list_text.specs.Outer.{outer_at};
ghost use Rattle.list_rows.specs.Rows.{rows_of};
ghost use Rattle.list_rows.specs.Left.{kept_in, LentAs};
ghost use Rattle.list_rows.specs.Listing.{values_lent, at_first};
ghost use Rattle.list_turns.specs.Lists.{Lists};
ghost use Rattle.list_turns.specs.Went.{Goes, Grown, Inside, NoneLeft, rows_due, turn_due, unread_in, RowsLeft};

use crate::input::read_some;
use crate::output::{show, show_last};
use list_ends::move_down;
use list_rows::{Run, State, list_rows};
use std::io;
use std::io::{ErrorKind, Read, Write};
use wire::Circuit;

// The bytes that are not listed yet lie in the buffer between two positions; the next tick's number.
#[derive(Clone, Copy)]
pub(crate) struct Turn {
    pub(crate) at: usize,
    pub(crate) end: usize,
    pub(crate) number: u64,
}

// Lists all rows, of which the bytes between two positions of the buffer are there.
pub(crate) fn list_all<R: Read, W: Write>(
    input: &mut R,
    output: &mut W,
    buffer: &mut [u8],
    from: usize,
    have: usize,
    circuit: &Circuit,
) -> io::Result<()>
    requires { 65536 < length buffer.old }
    ensures { OnOk result (Lists (rows_due (stored_in circuit.now) (slice_range buffer.old from have) 0 (at_first circuit.now.counts))
        (R.remaining input.old) (R.remaining input.new) (W.contents output.old) (W.contents output.new)) }
{
    let nodes = circuit.counts.nodes;
    let cells = circuit.counts.cursors;
    // A compiled tree has no more nodes, and its record lies within what was read.
    if 128 < nodes || 128 < cells || have < from || buffer.len() < have {
        return Err(io::Error::from(ErrorKind::Other));
    }
    let mut flags = [0; 128];
    let mut cursors = [0; 128];
    let mut values = values_room();
    let mut state = State {
        flags: &mut flags[..nodes],
        cursors: &mut cursors[..cells],
        values: &mut values,
    };
    let first = Turn {
        at: from,
        end: have,
        number: 0,
    };
    take_turns(input, output, buffer, first, circuit, &mut state)
}

// The value table of docs/STORAGE.md: any tree's cells and ops.
fn values_room() -> [f32; 2803]
    ensures { result ≡ replicate values_lent zero32 }
{
    [0.0; 2803]
}

// Nothing says that the input ends, so the turns are counted up to a number that no run uses up.
#[tactic(auto, using(crate::proofs::Went::goes_none, crate::proofs::Went::goes_then, crate::proofs::Went::lists_then))]
fn take_turns<R: Read, W: Write>(
    input: &mut R,
    output: &mut W,
    buffer: &mut [u8],
    first: Turn,
    circuit: &Circuit,
    state: &mut State,
) -> io::Result<()>
    requires wide { 65536 < length buffer.old }
    requires inside { Inside buffer.old first }
    ensures { OnOk result (Lists (turn_due (stored_in circuit.now) buffer.old first (kept_in state.old))
        (R.remaining input.old) (R.remaining input.new) (W.contents output.old) (W.contents output.new)) }
{
    let mut turn = first;
    for _ in 0..u64::MAX {
        let Some(next) = take_turn(input, output, buffer, turn, circuit, state)? else {
            return Ok(());
        };
        turn = next;
    }
    Err(io::Error::from(ErrorKind::Other))
}

// Lists the rows that are there whole. Where there is none, reads on. The run ends where a row ends it, or with the input; a read that fails ends the
// input.
fn take_turn<R: Read, W: Write>(
    input: &mut R,
    output: &mut W,
    buffer: &mut [u8],
    turn: Turn,
    circuit: &Circuit,
    state: &mut State,
) -> io::Result<Option<Turn>>
    requires wide { 65536 < length buffer.old }
    requires inside { Inside buffer.old turn }
    ensures lent { LentAs state.old state.new }
    ensures inside { IfOk result (λ o. IfSome o (λ next. Inside buffer.new next)) }
    ensures went { IfOk result (λ o. MatchOption o
        (Lists (turn_due (stored_in circuit.now) buffer.old turn (kept_in state.old))
        (R.remaining input.old) (R.remaining input.new) (W.contents output.old) (W.contents output.new))
        (λ next. Goes (turn_due (stored_in circuit.now) buffer.old turn (kept_in state.old))
        (turn_due (stored_in circuit.now) buffer.new next (kept_in state.new))
        (R.remaining input.old) (R.remaining input.new) (W.contents output.old) (W.contents output.new))) }
{
    let run = list_some(
        output,
        &buffer[turn.at..turn.end],
        turn.number,
        circuit,
        state,
    )?;
    if run.ended {
        return Ok(None);
    }
    if run.read != 0 {
        return Ok(Some(Turn {
            at: turn.at + run.read,
            end: turn.end,
            number: run.number,
        }));
    }
    let here = Turn {
        number: run.number,
        ..turn
    };
    match read_on(input, buffer, here) {
        Ok(Some(next)) => Ok(Some(next)),
        Ok(None) => {
            show_last(output, turn.end - turn.at)?;
            Ok(None)
        }
        Err(failed) => {
            show_last(output, turn.end - turn.at)?;
            Err(failed)
        }
    }
}

// Lists the rows that stand whole in the bytes, and writes their lines.
#[tactic(auto, using(list_machine::proofs::Rows::run_reads, list_machine::proofs::Room::low_short))]
fn list_some<W: Write>(
    output: &mut W,
    bytes: &[u8],
    number: u64,
    circuit: &Circuit,
    state: &mut State,
) -> io::Result<Run>
    ensures lent { LentAs state.old state.new }
    ensures short { outer_at bytes.now 0 ≡ is.Cut → length bytes.now ≤ 65536 }
    ensures there { IfOk result (λ run. run.read ≤ length bytes.now) }
    ensures listed { IfOk result (λ run. RowsLeft (rows_of (stored_in circuit.now) 65536 bytes.now 0 number (kept_in state.old)) run (kept_in state.new)
        (W.contents output.old) (W.contents output.new)) }
{
    let mut out = [0; 65536];
    let run = list_rows(bytes, 0, &mut out, number, circuit, state);
    show(output, &out, run.wrote)?;
    Ok(run)
}

// Moves the bytes that are not listed yet to the front and reads once behind them. At the end of the input they are all there is.
fn read_on<R: Read>(input: &mut R, buffer: &mut [u8], turn: Turn) -> io::Result<Option<Turn>>
    requires inside { Inside buffer.old turn }
    requires room { length (unread_in buffer.old turn) < length buffer.old }
    ensures inside { IfOk result (λ o. IfSome o (λ next. Inside buffer.new next)) }
    ensures number { IfOk result (λ o. IfSome o (λ next. next.number ≡ turn.number)) }
    ensures read { IfOk result (λ o. MatchOption o (NoneLeft (R.remaining input.old) (R.remaining input.new))
        (λ next. Grown (R.remaining input.old) (R.remaining input.new) (unread_in buffer.old turn) (unread_in buffer.new next))) }
{
    let left = move_down(buffer, turn.at, turn.end);
    let more = read_some(input, buffer, left)?;
    if more == 0 {
        return Ok(None);
    }
    Ok(Some(Turn {
        at: 0,
        end: left + more,
        number: turn.number,
    }))
}
