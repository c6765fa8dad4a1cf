// The room that the text lies in, and that a case is compiled and ticked in, of docs/STORAGE.md's lengths.
ghost use Rattle.std.specs.Prelude.{◌≡◌, length};

use compile::WorkRoom;
use tree_record::Refusal;
use wire::{Counts, Storage};

// Compiles a tree into the circuit's storage; the work room is lent here.
pub(crate) fn compile(tree: &[u8], storage: &mut Storage) -> Result<Counts, Refusal> {
    let mut nums = work_nums();
    let mut biases = work_biases();
    let mut wires = work_wires();
    let mut coefs = work_coefs();
    let mut work = WorkRoom {
        nums: &mut nums,
        biases: &mut biases,
        wires: &mut wires,
        coefs: &mut coefs,
    };
    lower::compile(tree, storage, &mut work)
}

// A circuit's storage holds any tree's ops, 2,163, and 65,536 terms: the stored trees have fewer than 45,000, and slots for any tree's terms
// would be 4 MB of the stack.
pub(crate) fn nums() -> [u32; 12991] {
    [0; 12991]
}

pub(crate) fn biases() -> [f32; 5222] {
    [0.0; 5222]
}

pub(crate) fn wires() -> [u32; 65536] {
    [0; 65536]
}

pub(crate) fn coefs() -> [f32; 65536] {
    [0.0; 65536]
}

// The value table: any tree's cells and ops.
pub(crate) fn values() -> [f32; 2803] {
    [0.0; 2803]
}

fn work_nums() -> [usize; WorkRoom::NUMS] {
    [0; WorkRoom::NUMS]
}

fn work_biases() -> [f32; WorkRoom::BIASES] {
    [0.0; WorkRoom::BIASES]
}

fn work_wires() -> [u32; WorkRoom::TERMS] {
    [0; WorkRoom::TERMS]
}

fn work_coefs() -> [f32; WorkRoom::TERMS] {
    [0.0; WorkRoom::TERMS]
}

// The whole text.
pub(crate) fn text() -> [u8; 262144]
    ensures { 262144 ≡ length result }
{
    [0; 262144]
}
