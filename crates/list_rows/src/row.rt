// One leaf row: the tick, and its line or its refusal.
ghost use Rattle.std.specs.Prelude.{◌≡◌, take, length};
ghost use Rattle.text.specs.Text.{placed};
ghost use Rattle.tick_check.specs.Check.{stored_in};
ghost use Rattle.tick_lane.specs.Lane.{outcome};
ghost use Rattle.tick.specs.Tick.{tick_of};
ghost use Rattle.list_rows.specs.Rows.{row_of};
ghost use Rattle.list_rows.specs.Left.{kept_in, with_outputs, no_outputs, line_within, LentAs, RowLeft};

use crate::state::{Next, State};
use list_text::{TickLine, write_line, write_refused};
use tick::tick;
use tick_lane::{Lane, TickError};
use tick_refusal::of_ticked;
use wire::{Circuit, Counts};

// Room for what a tick tells of a circuit's nodes and leaves, 128 at most.
#[derive(Drop)]
struct Outputs {
    statuses: [u8; 128],
    halts: [u8; 128],
    edges: [u8; 128],
}

impl Outputs {
    fn new() -> Outputs
        ensures { result ≡ no_outputs }
    {
        Outputs {
            statuses: [0; 128],
            halts: [0; 128],
            edges: [0; 128],
        }
    }
}

// How much was written, and what follows.
#[derive(Clone, Copy)]
pub(crate) struct Row {
    pub(crate) wrote: usize,
    pub(crate) next: Next,
}

#[tactic(auto, unfolding(crate::specs::Rows::row_of, crate::specs::Rows::text_after, crate::specs::Rows::ticked_from))]
pub(crate) fn list_row(
    out: &mut [u8],
    number: u64,
    circuit: &Circuit,
    row: &[u8],
    state: &mut State,
) -> Row
    ensures lent { LentAs state.old state.new }
    ensures left { RowLeft (row_of (stored_in circuit.now) row.now number (kept_in state.old)) out.old
        result (kept_in state.new) out.new }
{
    let mut outputs = Outputs::new();
    let answer = tick_state(circuit, row, state, &mut outputs);
    if answer.is_err() {
        let told = of_ticked(answer);
        return Row {
            wrote: write_refused(out, u64::from(told.number), told.place as u64),
            next: Next::Ended,
        };
    }
    Row {
        wrote: show_tick(out, number, circuit.counts, state, &outputs),
        next: Next::Goes,
    }
}

// A tick from the state, into the outputs.
fn tick_state(
    circuit: &Circuit,
    row: &[u8],
    state: &mut State,
    outputs: &mut Outputs,
) -> Result<(), TickError>
    ensures lent { LentAs state.old state.new }
    ensures ticked { outcome result (with_outputs (kept_in state.new) outputs.new)
        ≡ tick_of (stored_in circuit.now) row.now (with_outputs (kept_in state.old) outputs.old) }
{
    let mut lane = Lane {
        flags: &mut *state.flags,
        cursors: &mut *state.cursors,
        values: &mut *state.values,
        statuses: &mut outputs.statuses,
        halts: &mut outputs.halts,
        edges: &mut outputs.edges,
    };
    tick(circuit, row, &mut lane)
}

// A tick's line: of as many nodes and leaves as there are.
fn show_tick(out: &mut [u8], number: u64, counts: Counts, state: &State, outputs: &Outputs) -> usize
    ensures value { result ≡ length (line_within counts number (with_outputs (kept_in state.now) outputs.now)) }
    ensures out_after { out.new ≡ placed (line_within counts number (with_outputs (kept_in state.now) outputs.now)) out.old }
{
    let tick = TickLine {
        number,
        statuses: first_of(&outputs.statuses, counts.nodes),
        halts: first_of(&outputs.halts, counts.nodes),
        cursors: &*state.cursors,
        edges: first_of(&outputs.edges, counts.leaves),
    };
    write_line(out, &tick)
}

// The first so many entries, or all where there are fewer.
fn first_of(list: &[u8], n: usize) -> &[u8]
    ensures { result.now ≡ take n list.now }
{
    list.get(..n).unwrap_or(list)
}
