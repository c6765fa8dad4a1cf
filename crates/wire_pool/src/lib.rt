// Reads of a circuit's storage that test no bound: a form, its sum, an op's value, all ops. Inner: each asks that what it reads is there,
// and eval and tick, which call it, have tested that before.
#![tactic(auto)]

ghost use Rattle.std.specs.Prelude.{◌≡◌, ℕ, ◌+◌, ◌≤◌, ◌<◌, length};
ghost use Rattle.wire.specs.Terms.{value_in};
ghost use Rattle.wire.specs.Circuit.{meaning_in, form_in, op_in};
ghost use Rattle.wire_pool.specs.Values.{ReadableIn, OpReadableIn, op_value, table_after};

use index::Wire;
use wire::{Biases, Circuit, Form, Nums, Op, Pools};

// The form whose range stands at one index of the numbers, and whose bias at one of the biases.
pub fn form_at(circuit: &Circuit, at: usize, bias: usize) -> Form
    requires { (at + 1 < length circuit.now.nums.now) × (bias < length circuit.now.biases.now) }
    ensures { result ≡ form_in circuit.now at bias }
{
    Form {
        bias: circuit.biases[bias],
        first: circuit.nums[at] as usize,
        len: circuit.nums[at + 1] as usize,
    }
}

// A form's value against a table: the bias, then coefficient times value added in wire order.
pub fn sum(f: Form, pools: Pools, table: &[f32]) -> f32
    requires { ReadableIn pools (length table.now) f }
    ensures { result ≡ value_in table.now (meaning_in pools.entry f) }
{
    let mut total = f.bias;
    for at in f.first..f.first + f.len {
        total += pools.coefs[at] * table[Wire(pools.wires[at]).position()];
    }
    total
}

// The value of op i: a form, or left times max(0, gate).
#[tactic(auto, unfolding(crate::specs::Values::op_value, wire::specs::Storage::op_at, wire::specs::Storage::op_of))]
fn op_value(circuit: &Circuit, table: &[f32], i: usize) -> f32
    requires { OpReadableIn circuit.now (length table.now) i }
    ensures { result ≡ op_value table.now (op_in circuit.now i) }
{
    let at = Nums::OPS + Nums::PER_OP * i;
    let bias = Biases::OPS + Biases::PER_OP * i;
    let left = form_at(circuit, at + 1, bias);
    let value = sum(left, circuit.pools, table);
    if circuit.nums[at] == Op::AFFINE {
        return value;
    }
    let gate = form_at(circuit, at + 3, bias + 1);
    value * exact::positive_part(sum(gate, circuit.pools, table))
}

// The values of the first ops ops, each written at its place past the cells.
#[tactic(auto, unfolding(crate::specs::Values::table_after))]
pub fn run_ops(circuit: &Circuit, table: &mut [f32], ops: usize)
    requires ops_in_bounds { circuit.now.counts.cells + ops ≤ length table.old }
    requires by_index { (i : ℕ) → i < ops → OpReadableIn circuit.now (circuit.now.counts.cells + i) i }
    ensures { table.new ≡ table_after (op_in circuit.now) circuit.now.counts.cells table.old ops }
{
    for i in 0..ops {
        table[circuit.counts.cells + i] = op_value(circuit, table, i);
    }
}
