// One tick of a lent circuit, which may hold anything, from any state and on any row.
#![tactic(auto)]

ghost use Rattle.std.specs.Prelude.{◌≡◌};
ghost use Rattle.tick_check.specs.Check.{stored_in};
ghost use Rattle.tick_lane.specs.Lane.{outcome};
ghost use Rattle.tick_lane.specs.Loans.{lent_in, LentAs};
ghost use Rattle.tick.specs.Tick.{gate_of, tick_of};

use tick_lane::{Lane, TickError};
use wire::Circuit;

// 17, then 11 to 14, of the lengths of what is lent.
#[tactic(auto, using(tick_check::proofs::Checked::checked), unfolding(crate::specs::Tick::shapes_of))]
fn gate(circuit: &Circuit, row: &[u8], lane: &Lane) -> Result<(), TickError>
    ensures { result ≡ gate_of (stored_in circuit.now) row.now (lent_in lane.now) }
{
    if !tick_check::is_circuit(circuit) {
        return Err(TickError::BadCircuit);
    }
    let counts = circuit.counts;
    if row.len() != counts.leaves {
        return Err(TickError::LeafCount(row.len()));
    }
    if lane.flags.len() != counts.nodes {
        return Err(TickError::StateShape(lane.flags.len()));
    }
    if lane.cursors.len() != counts.cursors {
        return Err(TickError::CursorCount(lane.cursors.len()));
    }
    let room = counts.cells + counts.ops <= lane.values.len()
        && counts.nodes <= lane.statuses.len()
        && counts.nodes <= lane.halts.len()
        && counts.leaves <= lane.edges.len();
    if !room {
        return Err(TickError::ShortRoom);
    }
    Ok(())
}

// A tick: statuses, halts and edges written, flags and cursors advanced in place; or a refusal, which writes nothing,
// but that 18 leaves the value table computed.
#[tactic(auto, using(crate::proofs::Passed::ready, crate::proofs::Passed::row_fits), unfolding(crate::specs::Tick::tick_of))]
pub fn tick(circuit: &Circuit, row: &[u8], lane: &mut Lane) -> Result<(), TickError>
    ensures lent { LentAs lane.old lane.new }
    ensures outcome { outcome result (lent_in lane.new) ≡ tick_of (stored_in circuit.now) row.now (lent_in lane.old) }
{
    gate(circuit, row, lane)?;
    tick_lane::lane(circuit, row, lane)
}
