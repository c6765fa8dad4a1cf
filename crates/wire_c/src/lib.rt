// Values, evaluation and layers for callers in C and Rust: numbers and slices in, a document 01 number out, 0 where nothing is refused.
// C gives the parts of a circuit one by one: no struct of slices crosses that boundary.
#![tactic(auto)]

ghost use Rattle.std.specs.Prelude.{◌≡◌, length};
ghost use Rattle.wire_read.specs.Reading.{stored_op};
ghost use Rattle.wire_eval.specs.Evaluation.{value_of, op_value_of, evaluated, table_left};
ghost use Rattle.wire_layers.specs.Layers.{layered, layers_left, layered_number, largest};
ghost use Rattle.wire_c.specs.Answers.{answer_of, form_answer, ended_of};

use wire::{Circuit, Counts, Form, Pools};
use wire_eval::{EvalError, ValueError};

// A number, and the value where the number is 0.
#[repr(C)]
#[derive(Clone, Copy)]
pub struct Answer {
    pub number: u32,
    pub value: f32,
}

// A number, and the first bad op where the number is 17.
#[repr(C)]
#[derive(Clone, Copy)]
pub struct Ended {
    pub number: u32,
    pub op: usize,
}

fn answer_of(value: Result<f32, ValueError>) -> Answer
    ensures { result ≡ answer_of value }
{
    match value {
        Ok(value) => Answer { number: 0, value },
        Err(ValueError::Short) => Answer {
            number: 14,
            value: 0.0,
        },
        Err(ValueError::BadOp) => Answer {
            number: 17,
            value: 0.0,
        },
    }
}

fn ended_of(done: Result<(), EvalError>) -> Ended
    ensures { result ≡ ended_of done }
{
    match done {
        Ok(()) => Ended { number: 0, op: 0 },
        Err(EvalError::Short) => Ended { number: 14, op: 0 },
        Err(EvalError::BadOp(op)) => Ended { number: 17, op },
    }
}

// The value of a form, given by its bias and range.
pub fn palthengi_value(
    bias: f32,
    first: usize,
    len: usize,
    wires: &[u32],
    coefs: &[f32],
    table: &[f32],
) -> Answer
    ensures { result ≡ form_answer (value_of wires.now coefs.now table.now (record { bias = bias; first = first; len = len })) }
{
    let form = Form { bias, first, len };
    let value = wire_eval::value(form, Pools { wires, coefs }, table);
    answer_of(value.ok_or(ValueError::Short))
}

// The value of op i of a circuit in storage. What is in use does not matter, so C gives no counts.
pub fn palthengi_op_value(
    nums: &[u32],
    biases: &[f32],
    wires: &[u32],
    coefs: &[f32],
    table: &[f32],
    i: usize,
) -> Answer
    ensures { result ≡ answer_of (op_value_of wires.now coefs.now table.now (stored_op nums.now biases.now i)) }
{
    let circuit = Circuit {
        counts: Counts::default(),
        nums,
        biases,
        pools: Pools { wires, coefs },
    };
    let op = wire_read::op_at(&circuit, i);
    answer_of(wire_eval::op_value(op, circuit.pools, table))
}

// All ops, into a table whose first places hold the cells.
pub fn palthengi_evaluate(
    counts: Counts,
    nums: &[u32],
    biases: &[f32],
    wires: &[u32],
    coefs: &[f32],
    table: &mut [f32],
) -> Ended
    ensures value { result ≡ ended_of (evaluated counts nums.now biases.now wires.now coefs.now (length table.old)) }
    ensures table_after { table.new ≡ table_left counts nums.now biases.now wires.now coefs.now table.old }
{
    let circuit = Circuit {
        counts,
        nums,
        biases,
        pools: Pools { wires, coefs },
    };
    ended_of(wire_eval::evaluate(&circuit, table))
}

// The layer of every value. No layer depends on a coefficient, so C gives none.
pub fn palthengi_layers(
    counts: Counts,
    nums: &[u32],
    biases: &[f32],
    wires: &[u32],
    out: &mut [u32],
) -> u32
    ensures value { result ≡ layered_number (layered counts (length out.old)) }
    ensures out_after { out.new ≡ layers_left counts nums.now biases.now wires.now out.old }
{
    let circuit = Circuit {
        counts,
        nums,
        biases,
        pools: Pools { wires, coefs: &[] },
    };
    match wire_layers::layers(&circuit, out) {
        Ok(()) => 0,
        Err(_) => 14,
    }
}

// The depth, from the layers.
pub fn palthengi_depth(layers: &[u32]) -> u32
    ensures { result ≡ largest (λ layer. layer) layers.now }
{
    wire_layers::depth(layers)
}
