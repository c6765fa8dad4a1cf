// An archive for the comparisons: the functions of crate wire_c, under their names, for callers in C.
#![tactic(auto)]

ghost use Rattle.std.specs.Prelude.{◌≡◌, length};
ghost use Rattle.wire_read.specs.Reading.{stored_op};
ghost use Rattle.wire_eval.specs.Evaluation.{value_of, op_value_of, evaluated, table_left};
ghost use Rattle.wire_layers.specs.Layers.{layered, layers_left, layered_number, largest};
ghost use Rattle.wire_c.specs.Answers.{answer_of, form_answer, ended_of};

use wire::Counts;
use wire_c::{Answer, Ended};

#[unsafe(no_mangle)]
pub extern "C" fn palthengi_value(
    bias: f32,
    first: usize,
    len: usize,
    wires: &[u32],
    coefs: &[f32],
    table: &[f32],
) -> Answer
    ensures { result ≡ form_answer (value_of wires.now coefs.now table.now (record { bias = bias; first = first; len = len })) }
{
    wire_c::palthengi_value(bias, first, len, wires, coefs, table)
}

#[unsafe(no_mangle)]
pub extern "C" fn palthengi_op_value(
    nums: &[u32],
    biases: &[f32],
    wires: &[u32],
    coefs: &[f32],
    table: &[f32],
    i: usize,
) -> Answer
    ensures { result ≡ answer_of (op_value_of wires.now coefs.now table.now (stored_op nums.now biases.now i)) }
{
    wire_c::palthengi_op_value(nums, biases, wires, coefs, table, i)
}

#[unsafe(no_mangle)]
pub extern "C" fn palthengi_evaluate(
    counts: Counts,
    nums: &[u32],
    biases: &[f32],
    wires: &[u32],
    coefs: &[f32],
    table: &mut [f32],
) -> Ended
    ensures value { result ≡ ended_of (evaluated counts nums.now biases.now wires.now coefs.now (length table.old)) }
    ensures table_after { table.new ≡ table_left counts nums.now biases.now wires.now coefs.now table.old }
{
    wire_c::palthengi_evaluate(counts, nums, biases, wires, coefs, table)
}

#[unsafe(no_mangle)]
pub extern "C" fn palthengi_layers(
    counts: Counts,
    nums: &[u32],
    biases: &[f32],
    wires: &[u32],
    out: &mut [u32],
) -> u32
    ensures value { result ≡ layered_number (layered counts (length out.old)) }
    ensures out_after { out.new ≡ layers_left counts nums.now biases.now wires.now out.old }
{
    wire_c::palthengi_layers(counts, nums, biases, wires, out)
}

#[unsafe(no_mangle)]
pub extern "C" fn palthengi_depth(layers: &[u32]) -> u32
    ensures { result ≡ largest (λ layer. layer) layers.now }
{
    wire_c::palthengi_depth(layers)
}
