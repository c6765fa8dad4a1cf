// The value of a form, of an op and of all ops, for any storage and any table: wire.rs's evaluation, with an answer where the Rust panics.
#![tactic(auto)]

ghost use Rattle.std.specs.Prelude.{◌≡◌, ◌+◌, ◌<◌, length};
ghost use Rattle.wire_eval.specs.Evaluation.{value_of, op_value_of, can_value_in, first_bad_in, evaluated_in, table_left_in};

use wire::{Circuit, Counts, Form, Op, Pools};

// Why an op has no value.
#[derive(Clone, Copy)]
pub enum ValueError {
    // A form of it points past a pool, or reads past the table.
    Short,
    // There is no such slot, or it is of neither kind.
    BadOp,
}

// Why evaluating stopped.
#[derive(Clone, Copy)]
pub enum EvalError {
    // The table has no place for all cells and ops.
    Short,
    // The first op with no value: there is no such slot, it is of neither kind, a form of it points past a pool or reads a value not before its own.
    BadOp(usize),
}

// A form's value against a table, if the form lies in the pools and reads inside the table.
#[tactic(auto, using(wire_read::proofs::Reading::may_read), unfolding(crate::specs::Evaluation::value_of))]
pub fn value(f: Form, pools: Pools, table: &[f32]) -> Option<f32>
    ensures { result ≡ value_of pools.entry.wires.now pools.entry.coefs.now table.now f }
{
    if !wire_read::is_readable(f, pools, table.len()) {
        return None;
    }
    Some(wire_pool::sum(f, pools, table))
}

// An op's value against a table.
#[tactic(auto, unfolding(crate::specs::Evaluation::op_value_of, crate::specs::Evaluation::gated))]
pub fn op_value(op: Option<Op>, pools: Pools, table: &[f32]) -> Result<f32, ValueError>
    ensures { result ≡ op_value_of pools.entry.wires.now pools.entry.coefs.now table.now op }
{
    match op.ok_or(ValueError::BadOp)? {
        Op::Affine(form) => value(form, pools, table).ok_or(ValueError::Short),
        Op::Reglu { left, gate } => {
            let left = value(left, pools, table).ok_or(ValueError::Short)?;
            let gate = value(gate, pools, table).ok_or(ValueError::Short)?;
            Ok(left * exact::positive_part(gate))
        }
    }
}

// Whether op i can be valued.
#[tactic(auto, unfolding(crate::specs::Evaluation::can_value, wire_read::specs::Reading::slot_reads))]
fn can_value(circuit: &Circuit, i: usize) -> bool
    requires { circuit.now.counts.cells + i < 18446744073709551616 }
    ensures { result ≡ can_value_in circuit.now i }
{
    match wire_read::op_at(circuit, i) {
        Some(op) => wire_read::op_is_readable(op, circuit.pools, circuit.counts.cells + i),
        None => false,
    }
}

// The first op that cannot be valued, or the number of ops where each can.
#[tactic(auto, using(crate::proofs::Running::first_found), unfolding(crate::specs::Evaluation::first_bad))]
fn first_bad(circuit: &Circuit) -> usize
    requires { circuit.now.counts.cells + circuit.now.counts.ops < 18446744073709551616 }
    ensures { result ≡ first_bad_in circuit.now }
{
    for i in 0..circuit.counts.ops {
        if !can_value(circuit, i) {
            return i;
        }
    }
    circuit.counts.ops
}

// All ops, into a table whose first places hold the cells.
#[tactic(auto, using(crate::proofs::Running::bad_high), unfolding(crate::specs::Evaluation::evaluated, crate::specs::Evaluation::table_left))]
pub fn evaluate(circuit: &Circuit, table: &mut [f32]) -> Result<(), EvalError>
    ensures value { result ≡ evaluated_in circuit.now (length table.old) }
    ensures table_after { table.new ≡ table_left_in circuit.now table.old }
{
    let Counts { cells, ops, .. } = circuit.counts;
    if table.len() < cells || table.len() - cells < ops {
        return Err(EvalError::Short);
    }
    let good = first_bad(circuit);
    wire_pool::run_ops(circuit, table, good);
    if good < ops {
        return Err(EvalError::BadOp(good));
    }
    Ok(())
}
