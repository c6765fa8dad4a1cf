// One tick of a circuit that has passed its check, on parts of the right lengths. Inner: tick asks this of one part, and whoever ticks many
// parts of one circuit asks it of each, after one check.
#![tactic(auto)]

mod answers;
mod evaluate;
mod lent;

ghost use Rattle.std.specs.Prelude.{◌≡◌, ◌≤◌, length, nat_lt};
ghost use Rattle.std.specs.List.{position};
ghost use Rattle.wire.specs.Storage.{output_count};
ghost use Rattle.tick_check.specs.Check.{stored_in};
ghost use Rattle.tick_lane.specs.Evaluate.{outs_of};
ghost use Rattle.tick_lane.specs.Lane.{inputs_of, outcome, written, settle_of, lane_of};
ghost use Rattle.tick_lane.specs.Loans.{lent_in, LentAs, Ready};
ghost use Rattle.tick_lane.specs.declared.TickError.TheVariants.{BadInvariant};

pub use evaluate::read_outs;
use index::NodeIndex;
pub use lent::Lane;
use tick_verdict::InvariantError;
use wire::Circuit;

// Why a tick is refused: each refusal with its place, a broken invariant with its case and the offending float.
#[derive(Clone, Copy)]
pub enum TickError {
    BadCircuit,
    LeafCount(usize),
    StateShape(usize),
    CursorCount(usize),
    ShortRoom,
    BadStatus(usize),
    BadFlag(NodeIndex),
    BadInvariant(InvariantError),
}

impl From<InvariantError> for TickError {
    ghost from_gives = { λ broken t. t ≡ BadInvariant broken };

    fn from(broken: InvariantError) -> TickError {
        TickError::BadInvariant(broken)
    }
}

fn first_above(most: u8, list: &[u8]) -> Option<usize>
    ensures { result ≡ position (nat_lt most) list.now }
{
    list.iter().position(|x| most < *x)
}

#[tactic(auto, using(crate::proofs::Above::position_is), unfolding(crate::specs::Lane::inputs_of))]
fn inputs(row: &[u8], flags: &[u8]) -> Result<(), TickError>
    ensures { result ≡ inputs_of row.now flags.now }
{
    if let Some(slot) = first_above(2, row) {
        return Err(TickError::BadStatus(slot));
    }
    if let Some(node) = first_above(1, flags) {
        return Err(TickError::BadFlag(NodeIndex(node)));
    }
    Ok(())
}

// All that an accepted tick writes. The edges go by the old flags.
#[tactic(auto, using(crate::proofs::Cells::filled), unfolding(crate::specs::Lane::written))]
fn write(circuit: &Circuit, outs: &[f32], lane: &mut Lane)
    requires { Ready circuit.now lane.old × (output_count circuit.now.counts ≤ length outs.now) }
    ensures lent { LentAs lane.old lane.new }
    ensures written { lent_in lane.new ≡ written circuit.now.counts circuit.now.nums.now outs.now (lent_in lane.old) }
{
    let nodes = circuit.counts.nodes;
    answers::write_statuses(lane.statuses, outs, nodes);
    answers::write_halts(lane.halts, outs, nodes);
    let flags = &mut *lane.flags;
    let edges = &mut *lane.edges;
    answers::write_edges(edges, circuit.nums, flags, outs, circuit.counts.leaves);
    answers::write_flags(lane.flags, outs, nodes);
    answers::write_cursors(lane.cursors, outs, nodes, circuit.counts.cursors);
}

// Of the output values: 18, or all that an accepted tick writes.
#[tactic(auto, unfolding(crate::specs::Lane::settle_of))]
fn settle(circuit: &Circuit, outs: &[f32], lane: &mut Lane) -> Result<(), TickError>
    requires { Ready circuit.now lane.old × (length outs.now ≡ output_count circuit.now.counts) }
    ensures lent { LentAs lane.old lane.new }
    ensures outcome { outcome result (lent_in lane.new) ≡ settle_of circuit.now.counts circuit.now.nums.now outs.now (lent_in lane.old) }
{
    tick_verdict::tick_verdict(outs, circuit.counts.nodes, circuit.counts.cursors)?;
    write(circuit, outs, lane);
    Ok(())
}

// What is left of a tick once the value table stands: the output values, read into a room that holds them, and what follows of them.
fn finish(circuit: &Circuit, room: &mut [f32], lane: &mut Lane) -> Result<(), TickError>
    requires { Ready circuit.now lane.old × (output_count circuit.now.counts ≤ length room.old) }
    ensures lent { LentAs lane.old lane.new }
    ensures outcome { outcome result (lent_in lane.new)
        ≡ settle_of circuit.now.counts circuit.now.nums.now (outs_of (stored_in circuit.now) lane.old.values.now) (lent_in lane.old) }
{
    let table = &mut *lane.values;
    read_outs(circuit, table, room);
    let n = 6 * circuit.counts.nodes + circuit.counts.cursors;
    settle(circuit, &room[..n], lane)
}

// One tick of one part. A room is zeroed in each tick, so that a small tree gets a small one.
#[tactic(auto, using(crate::proofs::Cells::table_length), unfolding(crate::specs::Lane::lane_of))]
pub fn lane(circuit: &Circuit, row: &[u8], lane: &mut Lane) -> Result<(), TickError>
    requires ready { Ready circuit.now lane.old }
    requires row_len { length row.now ≡ circuit.now.counts.leaves }
    ensures lent { LentAs lane.old lane.new }
    ensures outcome { outcome result (lent_in lane.new) ≡ lane_of (stored_in circuit.now) row.now (lent_in lane.old) }
{
    let flags = &mut *lane.flags;
    let cursors = &mut *lane.cursors;
    let values = &mut *lane.values;
    inputs(row, flags)?;
    evaluate::fill_table(circuit, row, flags, cursors, values);
    if 6 * circuit.counts.nodes + circuit.counts.cursors <= 64 {
        let mut few = [0.0f32; 64];
        return finish(circuit, &mut few, lane);
    }
    let mut room = [0.0f32; 896];
    finish(circuit, &mut room, lane)
}
