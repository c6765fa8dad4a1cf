// Affine forms over two lent pools, a pool of wires and one of coefficients (wire.rs), and a circuit in lent storage.
#![tactic(auto)]

mod storage;

ghost use Rattle.std.specs.Prelude.{◌≡◌};
ghost use Rattle.wire.specs.Terms.{constant_form, look_up};
ghost use Rattle.wire.specs.Storage.{op_slots, term_slots, storage_holds};

use index::Wire;
pub use storage::Storage;

// "A form is a struct with an f32 bias and the range of its terms": its terms are those of the pools from first on, len of them.
#[derive(Clone, Copy)]
pub struct Form {
    pub bias: f32,
    pub first: usize,
    pub len: usize,
}

// A weighted wire.
#[derive(Clone, Copy)]
pub struct Term {
    pub wire: Wire,
    pub coef: f32,
}

impl Form {
    // A form with no terms.
    pub fn constant(bias: f32) -> Self
        ensures { result ≡ constant_form bias }
    {
        Self {
            bias,
            first: 0,
            len: 0,
        }
    }
}

// The pools that forms point into. Both have a place for each term.
#[derive(Clone, Copy)]
pub struct Pools<'a> {
    pub wires: &'a [u32],
    pub coefs: &'a [f32],
}

// The form's part of a pool, or an empty part where it points past it.
#[tactic(auto, unfolding(crate::specs::Terms::look_up))]
pub fn part_of<'a, T>(f: Form, pool: &'a [T]) -> &'a [T]
    ensures { result.now ≡ look_up f pool.now }
{
    match pool.get(f.first..) {
        Some(rest) => rest.get(..f.len).unwrap_or(&[]),
        None => &[],
    }
}

// How much of each sort a circuit has in use.
#[repr(C)]
#[derive(Clone, Copy, Default)]
pub struct Counts {
    pub nodes: usize,
    pub cursors: usize,
    pub leaves: usize,
    pub cells: usize,
    pub ops: usize,
    pub terms: usize,
}

// The slice of a circuit's numbers, by where each sort begins.
#[derive(Clone, Copy)]
pub struct Nums {}

impl Nums {
    // The node of each leaf slot.
    pub const LEAVES: usize = 0;
    // The node of each cursor cell.
    pub const CURSORS: usize = 128;
    // The nodes in report order.
    pub const REPORT: usize = 256;
    // The range of each output form.
    pub const OUTPUTS: usize = 384;
    // The ops. What stands before is the fixed part.
    pub const OPS: usize = 2176;
    // A range: its first term and its length.
    pub const PER_FORM: usize = 2;
    // The kind, then the ranges of left and gate.
    pub const PER_OP: usize = 5;
}

// The slice of a circuit's biases: those of the output forms from 0 on.
#[derive(Clone, Copy)]
pub struct Biases {}

impl Biases {
    // The ops' biases. What stands before is the fixed part.
    pub const OPS: usize = 896;
    // Those of left and gate.
    pub const PER_OP: usize = 2;
}

// A circuit in lent storage.
#[derive(Clone, Copy)]
pub struct Circuit<'a> {
    pub counts: Counts,
    pub nums: &'a [u32],
    pub biases: &'a [f32],
    pub pools: Pools<'a>,
}

// An instruction, as it stands in storage.
#[derive(Clone, Copy)]
pub enum Op {
    // The form itself.
    Affine(Form),
    // left × max(0, gate).
    Reglu { left: Form, gate: Form },
}

impl Op {
    pub const AFFINE: u32 = 1;

    pub const REGLU: u32 = 2;
}

// How many op slots slices of these lengths hold whole.
pub fn op_slots(nums: usize, biases: usize) -> usize
    ensures { result ≡ op_slots nums biases }
{
    let in_nums = nums.saturating_sub(Nums::OPS) / Nums::PER_OP;
    let in_biases = biases.saturating_sub(Biases::OPS) / Biases::PER_OP;
    in_nums.min(in_biases)
}

// How many term slots pools of these lengths hold.
pub fn term_slots(wires: usize, coefs: usize) -> usize
    ensures { result ≡ term_slots wires coefs }
{
    wires.min(coefs)
}

// Whether storage of these lengths holds the counts.
#[tactic(auto, unfolding(crate::specs::Storage::storage_holds))]
pub fn storage_holds(counts: Counts, nums: usize, biases: usize, wires: usize, coefs: usize) -> bool
    ensures { result ≡ storage_holds counts nums biases wires coefs }
{
    Nums::OPS <= nums
        && Biases::OPS <= biases
        && counts.ops <= op_slots(nums, biases)
        && counts.terms <= term_slots(wires, coefs)
}
