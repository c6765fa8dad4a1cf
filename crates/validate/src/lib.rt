// Validation of a lent value table against a lent circuit: `validate` of lower.rs, on anything.
#![tactic(auto)]

ghost use Rattle.std.specs.Prelude.{◌≡◌, ◌+◌, ◌≤◌, length};
ghost use Rattle.tick_check.specs.Check.{stored_in};
ghost use Rattle.tick_check.specs.Checked.{Checked};
ghost use Rattle.tick_lane.specs.Evaluate.{outs_of};
ghost use Rattle.tick_verdict.specs.Verdict.{values_verdict};
ghost use Rattle.validate.specs.Validate.{validate_of};
ghost use Rattle.validate.specs.declared.ValidateError.TheVariants.{Broken};

use tick_verdict::InvariantError;
use wire::Circuit;

// Why a value table is refused.
#[derive(Clone, Copy)]
pub enum ValidateError {
    BadCircuit,
    ShortRoom,
    Broken(InvariantError),
}

impl From<InvariantError> for ValidateError {
    ghost from_gives = { λ broken e. e ≡ Broken broken };

    fn from(broken: InvariantError) -> ValidateError {
        ValidateError::Broken(broken)
    }
}

// The verdict on the output values of a circuit that has passed its check, of which there are six a node and one a cursor.
fn judge(circuit: &Circuit, table: &[f32]) -> Result<(), InvariantError>
    requires checked { Checked (stored_in circuit.now) }
    requires whole_table { circuit.now.counts.cells + circuit.now.counts.ops ≤ length table.now }
    ensures { result ≡ values_verdict (outs_of (stored_in circuit.now) table.now) circuit.now.counts.nodes circuit.now.counts.cursors }
{
    let counts = circuit.counts;
    let mut room = [0.0; 896];
    tick_lane::read_outs(circuit, table, &mut room);
    let outs = &room[..6 * counts.nodes + counts.cursors];
    tick_verdict::values_verdict(outs, counts.nodes, counts.cursors)
}

// Whether the values of the output forms against this table are what they must be: which case is broken, where, and by which float.
#[tactic(auto, unfolding(crate::specs::Validate::validate_of))]
pub fn validate(circuit: &Circuit, table: &[f32]) -> Result<(), ValidateError>
    ensures { result ≡ validate_of (stored_in circuit.now) table.now }
{
    if !tick_check::is_circuit(circuit) {
        return Err(ValidateError::BadCircuit);
    }
    if table.len() < circuit.counts.cells + circuit.counts.ops {
        return Err(ValidateError::ShortRoom);
    }
    judge(circuit, table)?;
    Ok(())
}
