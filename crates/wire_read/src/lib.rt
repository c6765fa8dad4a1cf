// Which forms and ops can be read, for any storage: wire.rs's reading, with an answer where the Rust panics.
#![tactic(auto)]

ghost use Rattle.std.specs.Prelude.{◌≡◌};
ghost use Rattle.wire_read.specs.Reading.{readable, stored_op, op_reads};

use index::Wire;
use wire::{Biases, Circuit, Form, Nums, Op, Pools};

// Whether a form lies in both pools and reads only values below n.
#[tactic(auto, unfolding(crate::specs::Reading::readable))]
pub fn is_readable(f: Form, pools: Pools, n: usize) -> bool
    ensures { result ≡ readable pools.entry.wires.now pools.entry.coefs.now n f }
{
    let Some(end) = f.first.checked_add(f.len) else {
        return false;
    };
    if pools.wires.len() < end || pools.coefs.len() < end {
        return false;
    }
    pools.wires[f.first..end]
        .iter()
        .all(|wire| Wire(*wire).position() < n)
}

// Op i of a circuit, if there is such a slot and it is of one of the two kinds.
#[tactic(auto, unfolding(crate::specs::Reading::stored_op))]
pub fn op_at(circuit: &Circuit, i: usize) -> Option<Op>
    ensures { result ≡ stored_op circuit.now.nums.now circuit.now.biases.now i }
{
    if wire::op_slots(circuit.nums.len(), circuit.biases.len()) <= i {
        return None;
    }
    let at = Nums::OPS + Nums::PER_OP * i;
    let bias = Biases::OPS + Biases::PER_OP * i;
    let left = wire_pool::form_at(circuit, at + 1, bias);
    match circuit.nums[at] {
        Op::AFFINE => Some(Op::Affine(left)),
        Op::REGLU => Some(Op::Reglu {
            left,
            gate: wire_pool::form_at(circuit, at + 3, bias + 1),
        }),
        _ => None,
    }
}

// Whether an op's forms are readable.
#[tactic(auto, unfolding(crate::specs::Reading::op_reads))]
pub fn op_is_readable(op: Op, pools: Pools, n: usize) -> bool
    ensures { result ≡ op_reads pools.entry.wires.now pools.entry.coefs.now n op }
{
    match op {
        Op::Affine(form) => is_readable(form, pools, n),
        Op::Reglu { left, gate } => is_readable(left, pools, n) && is_readable(gate, pools, n),
    }
}
