// The second phase of compile: the terms of the forms that were built are counted, and the forms are written to the circuit's storage.
ghost use Rattle.std.specs.Prelude.{◌≡◌, ◌+◌, ◌*◌, ◌≤◌, ◌<◌, length};
ghost use Rattle.wire.specs.Terms.{terms_of};
ghost use Rattle.wire.specs.Lending.{LentAs};
ghost use Rattle.arena_terms.specs.Steps.{Put};
ghost use Rattle.builder_table.specs.Whole.{ops_most};
ghost use Rattle.builder_table.specs.Loans.{memory};
ghost use Rattle.lower_emit.specs.Emit.{row_of, output_slot, op_len, op_lens, output_lens, outputs_many, all_lens};
ghost use Rattle.lower_emit.specs.Emit.{form_in, op_at, ops_in, outputs_in, emit_in, Inside, OpInside, OpsInside, OutputsInside};
ghost use Rattle.lower_emit.specs.Written.{image_of, image_at, WritesTo, Puts, Holds, FitsFrom, Fits, Written};

use arena::Arena;
use builder_table::{Builder, Table};
use wire::{Biases, Form, Nums, Op, Storage};

// The row of the table that holds a field of a node: success, failure, running, reached, halted, next running.
#[tactic(auto, unfolding(crate::specs::Emit::row_of))]
fn row_of(field: usize) -> usize
    ensures value { result ≡ row_of field }
    ensures low { result ≤ 2176 }
{
    match field {
        0 => Table::RAW_SUCCESS,
        1 => Table::RAW_FAILURE,
        2 => Table::RAW_RUNNING,
        3 => Table::REACHED,
        4 => Table::HALTED,
        _ => Table::NEXT_RUNNING,
    }
}

// The slot of the table that holds output form k.
#[tactic(auto, unfolding(crate::specs::Emit::output_slot))]
fn output_slot(nodes: usize, k: usize) -> usize
    requires { (nodes ≤ 128) × (k < 6 * nodes + 128) }
    ensures value { result ≡ output_slot nodes k }
    ensures low { result < 2560 }
{
    let nodal = 6 * nodes;
    if k < nodal {
        row_of(k % 6) + k / 6
    } else {
        Table::NEXT_CURSOR + (k - nodal)
    }
}

// ---- counting

#[tactic(auto, using(crate::proofs::Counted::counting_ops))]
fn count_ops(b: &Builder) -> usize
    requires { (b.now.ops ≤ ops_most) × (op_lens b.now.nums.now 0 b.now.ops < 4294967296) }
    ensures { result ≡ op_lens b.now.nums.now 0 b.now.ops }
{
    let mut total = 0;
    for k in 0..b.ops {
        let at = Table::OPS + 2 * k;
        total += b.load(at).len + b.load(at + 1).len;
    }
    total
}

#[tactic(auto, using(crate::proofs::Counted::counting_outputs))]
fn count_outputs(b: &Builder, nodes: usize, n: usize) -> usize
    requires { (nodes ≤ 128) × (n ≤ 6 * nodes + 128) × (output_lens b.now.nums.now nodes 0 n < 4294967296) }
    ensures { result ≡ output_lens b.now.nums.now nodes 0 n }
{
    let mut total = 0;
    for k in 0..n {
        total += b.load(output_slot(nodes, k)).len;
    }
    total
}

// "Terms are counted .. one for each appearance."
pub fn count_terms(b: &Builder, nodes: usize, cursors: usize) -> usize
    requires { (b.now.ops ≤ ops_most) × (nodes ≤ 128) × (cursors ≤ 128) × (all_lens b.now.nums.now b.now.ops nodes cursors < 4294967296) }
    ensures { result ≡ all_lens b.now.nums.now b.now.ops nodes cursors }
{
    count_ops(b) + count_outputs(b, nodes, 6 * nodes + cursors)
}

// ---- writing

// Copies the terms of a form of the arena to two pools, from an index on. Term by term: of the library's copy an archive for C would need `memmove` from
// outside.
#[tactic(auto, using(crate::proofs::Copied::copied_end))]
fn copy_terms(wires: &mut [u32], coefs: &mut [f32], next: usize, from: &Arena, f: Form)
    requires inside { Inside from.now.wires.now from.now.coefs.now f }
    requires fits { (next + f.len ≤ length wires.old) × (next + f.len ≤ length coefs.old) }
    ensures { Put wires.old coefs.old next (terms_of from.now.wires.now from.now.coefs.now f) wires.new coefs.new (next + f.len) }
{
    for k in 0..f.len {
        wires[next + k] = from.wires[f.first + k];
        coefs[next + k] = from.coefs[f.first + k];
    }
}

// A circuit's storage as far as it is written, and where the next form's terms go.
#[derive(Drop)]
struct Writer<'a, 's> {
    storage: &'a mut Storage<'s>,
    next: usize,
}

impl Writer<'_, '_> {
    // Copies the terms of a form of the arena.
    fn write_terms(&mut self, from: &Arena, f: Form)
        requires inside { Inside from.now.wires.now from.now.coefs.now f }
        requires fits { Fits self.old f.len }
        ensures lent { WritesTo self.old self.new }
        ensures nums_kept { self.new.storage.now.nums.now ≡ self.old.storage.now.nums.now }
        ensures biases_kept { self.new.storage.now.biases.now ≡ self.old.storage.now.biases.now }
        ensures put { Puts self.old (terms_of from.now.wires.now from.now.coefs.now f) self.new }
    {
        let storage = &mut *self.storage;
        copy_terms(storage.wires, storage.coefs, self.next, from, f);
        self.next += f.len;
    }

    // A form of the arena: its range at `at`, its bias at `bias`, its terms past those written.
    fn write_form(&mut self, from: &Arena, f: Form, at: usize, bias: usize)
        requires at_in_bounds { (at + 1 < length self.old.storage.now.nums.now) × (bias < length self.old.storage.now.biases.now) × (at < 65536) }
        requires inside { Inside from.now.wires.now from.now.coefs.now f }
        requires fits { Fits self.old f.len }
        ensures lent { WritesTo self.old self.new }
        ensures written { image_of self.new ≡ form_in (image_of self.old) from.now.wires.now from.now.coefs.now f at bias }
        ensures next { self.new.next ≡ self.old.next + f.len }
    {
        self.storage.nums[at] = self.next as u32;
        self.storage.nums[at + 1] = f.len as u32;
        self.storage.biases[bias] = f.bias;
        self.write_terms(from, f);
    }

    // Op k: its kind, its left form, its gate.
    #[tactic(auto, unfolding(crate::specs::Emit::op_in))]
    fn write_op(&mut self, b: &Builder, k: usize)
        requires holds { Holds self.old.storage.now (k + 1) × (k < ops_most) }
        requires inside { OpInside (memory b.now) k }
        requires fits { Fits self.old (op_len b.now.nums.now k) }
        ensures lent { WritesTo self.old self.new }
        ensures written { image_of self.new ≡ op_at (image_of self.old) (memory b.now) k }
        ensures next { self.new.next ≡ self.old.next + op_len b.now.nums.now k }
    {
        let at = Nums::OPS + Nums::PER_OP * k;
        let bias = Biases::OPS + Biases::PER_OP * k;
        let slot = Table::OPS + 2 * k;
        self.storage.nums[at] = Op::REGLU;
        self.write_form(&b.arena, b.load(slot), at + 1, bias);
        self.write_form(&b.arena, b.load(slot + 1), at + 3, bias + 1);
    }

    #[tactic(auto, using(crate::proofs::Made::writing_ops))]
    fn write_ops(&mut self, b: &Builder)
        requires holds { Holds self.old.storage.now b.now.ops × (b.now.ops ≤ ops_most) }
        requires inside { OpsInside (memory b.now) b.now.ops }
        requires fits { Fits self.old (op_lens b.now.nums.now 0 b.now.ops) }
        ensures lent { WritesTo self.old self.new }
        ensures written { image_of self.new ≡ ops_in (image_of self.old) (memory b.now) 0 b.now.ops }
        ensures next { self.new.next ≡ self.old.next + op_lens b.now.nums.now 0 b.now.ops }
    {
        for k in 0..b.ops {
            self.write_op(b, k);
        }
    }

    #[tactic(auto, using(crate::proofs::Made::writing_outputs))]
    fn write_outputs(&mut self, b: &Builder, nodes: usize, n: usize)
        requires holds { Holds self.old.storage.now 0 × (nodes ≤ 128) × (n ≤ 6 * nodes + 128) }
        requires inside { OutputsInside (memory b.now) nodes n }
        requires fits { Fits self.old (output_lens b.now.nums.now nodes 0 n) }
        ensures lent { WritesTo self.old self.new }
        ensures written { image_of self.new ≡ outputs_in (image_of self.old) (memory b.now) nodes 0 n }
    {
        for k in 0..n {
            let f = b.load(output_slot(nodes, k));
            self.write_form(&b.arena, f, Nums::OUTPUTS + Nums::PER_FORM * k, k);
        }
    }
}

// Writes all ops, then all output forms, with their terms, to a circuit that holds them.
#[tactic(auto, unfolding(crate::specs::Emit::emit_in))]
pub fn emit(storage: &mut Storage, b: &Builder, nodes: usize, cursors: usize)
    requires holds { Holds storage.old b.now.ops × (b.now.ops ≤ ops_most) × (nodes ≤ 128) × (cursors ≤ 128) }
    requires ops_inside { OpsInside (memory b.now) b.now.ops }
    requires outputs_inside { OutputsInside (memory b.now) nodes (outputs_many nodes cursors) }
    requires fits { FitsFrom storage.old 0 (all_lens b.now.nums.now b.now.ops nodes cursors) }
    ensures lent { LentAs storage.old storage.new }
    ensures written { Written storage.new (emit_in (image_at storage.old 0) (memory b.now) b.now.ops nodes cursors) }
{
    let mut to = Writer { storage, next: 0 };
    to.write_ops(b);
    to.write_outputs(b, nodes, 6 * nodes + cursors);
}
