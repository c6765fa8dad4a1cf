// Row after row.
ghost use Rattle.std.specs.Prelude.{◌≡◌, ◌≤◌, length, take, drop};
ghost use Rattle.tick_check.specs.Check.{stored_in};
ghost use Rattle.list_rows.specs.Rows.{step_of, rows_of};
ghost use Rattle.list_rows.specs.Left.{kept_in, LentAs, StepLeft, RunLeft};

use crate::row::list_row;
use crate::state::{Next, State};
use list_text::{LINE_ROOM, Outer, outer_at, write_bad};
use wire::Circuit;

// What became of the record that stands first.
#[derive(Clone, Copy)]
pub(crate) struct Step {
    pub(crate) read: usize,
    pub(crate) wrote: usize,
    pub(crate) number: u64,
    pub(crate) next: Next,
}

// How far the bytes were read, how much was written, the next tick's number, and whether the run has ended.
#[derive(Clone, Copy)]
pub struct Run {
    pub read: usize,
    pub wrote: usize,
    pub number: u64,
    pub ended: bool,
}

// Lists the rows that stand whole in the bytes from a position on, while there is room for one line more. What is read has left the state, the
// output and the number as if all rows had come at once; what is not read is still to be listed, with the bytes that follow it.
pub fn list_rows(
    bytes: &[u8],
    from: usize,
    out: &mut [u8],
    number: u64,
    circuit: &Circuit,
    state: &mut State,
) -> Run
    ensures lent { LentAs state.old state.new }
    ensures left { RunLeft (rows_of (stored_in circuit.now) (length out.old) bytes.now from number (kept_in state.old)) out.old
        result (kept_in state.new) out.new }
{
    let mut run = Run {
        read: from,
        wrote: 0,
        number,
        ended: false,
    };
    // A `while`, since how many rows there are is what the bytes say.
    while LINE_ROOM <= out.len() - run.wrote {
        let step = step_into(bytes, run.read, out, run.wrote, run.number, circuit, state);
        run.read += step.read;
        run.wrote += step.wrote;
        run.number = step.number;
        match step.next {
            Next::Goes => {}
            Next::Waits => return run,
            Next::Ended => {
                run.ended = true;
                return run;
            }
        }
    }
    run
}

// The record that stands at a position, printed from another position on.
#[tactic(auto, using(crate::proofs::Lending::rest_back, std::proofs::lemmas::Slice::overwrites))]
fn step_into(
    bytes: &[u8],
    at: usize,
    out: &mut [u8],
    done: usize,
    number: u64,
    circuit: &Circuit,
    state: &mut State,
) -> Step
    requires { done ≤ length out.old }
    ensures lent { LentAs state.old state.new }
    ensures left { StepLeft (step_of (stored_in circuit.now) (drop at bytes.now) number (kept_in state.old)) (drop done out.old)
        result (kept_in state.new) (drop done out.new) }
    ensures before { take done out.new ≡ take done out.old }
{
    let rest = bytes.get(at..).unwrap_or(&[]);
    list_step(rest, &mut out[done..], number, circuit, state)
}

// The record that stands first in the bytes.
#[tactic(auto, using(crate::proofs::Steps::whole_lies), unfolding(crate::specs::Rows::step_of, crate::specs::Rows::step_at))]
fn list_step(
    bytes: &[u8],
    out: &mut [u8],
    number: u64,
    circuit: &Circuit,
    state: &mut State,
) -> Step
    ensures lent { LentAs state.old state.new }
    ensures left { StepLeft (step_of (stored_in circuit.now) bytes.now number (kept_in state.old)) out.old
        result (kept_in state.new) out.new }
{
    match outer_at(bytes, 0) {
        Outer::Whole {
            kind: 0x0100,
            start,
            end,
        } => {
            let row = list_row(out, number, circuit, &bytes[start..end], state);
            Step {
                read: end,
                wrote: row.wrote,
                number: number.wrapping_add(1),
                next: row.next,
            }
        }
        Outer::Cut => Step {
            read: 0,
            wrote: 0,
            number,
            next: Next::Waits,
        },
        Outer::Whole { .. } | Outer::Bad => Step {
            read: 0,
            wrote: write_bad(out),
            number,
            next: Next::Ended,
        },
    }
}
