// The listing program at the front of its input: the record that holds the tree is found, and the tree compiled.
#![tactic(auto)]

ghost use Rattle.wire.specs.Lending.{LentAs};
ghost use Rattle.compile.specs.Lending.{LentAs as WorkLentAs};
ghost use Rattle.list_machine.specs.Begin.{begin_tree, begin_of};
ghost use Rattle.list_start.specs.Left.{rooms_in, BeginLeft};

use compile::WorkRoom;
use list_text::{Outer, outer_at, write_bad, write_refused};
use lower::compile;
use wire::{Counts, Storage};

// What is due after the front of the input: rows, for the circuit of which these are the counts; more bytes of the record, which is cut; or nothing,
// since the run has ended.
#[derive(Clone, Copy)]
pub enum Due {
    Rows(Counts),
    More,
    Nothing,
}

// How many bytes were read, how much was written, and what is due.
#[derive(Clone, Copy)]
pub struct Begun {
    pub read: usize,
    pub wrote: usize,
    pub due: Due,
}

// Compiles the tree of the record that stands first. Where the bytes end inside that record nothing is read, written or changed.
#[tactic(auto, using(list_rows::proofs::Steps::whole_lies), unfolding(list_machine::specs::Begin::begin_of, list_machine::specs::Begin::begin_at))]
pub fn begin(bytes: &[u8], out: &mut [u8], storage: &mut Storage, work: &mut WorkRoom) -> Begun
    ensures lent { LentAs storage.old storage.new × WorkLentAs work.old work.new }
    ensures left { BeginLeft (begin_of (rooms_in storage.old work.old) bytes.now) out.old result (rooms_in storage.new work.new) out.new }
{
    match outer_at(bytes, 0) {
        Outer::Whole {
            kind: 0x0101,
            start,
            end,
        } => begin_tree(&bytes[start..end], end, out, storage, work),
        Outer::Cut => Begun {
            read: 0,
            wrote: 0,
            due: Due::More,
        },
        Outer::Whole { .. } | Outer::Bad => Begun {
            read: 0,
            wrote: write_bad(out),
            due: Due::Nothing,
        },
    }
}

// The tree of these bytes, whose record ends at a position.
#[tactic(auto, unfolding(list_machine::specs::Begin::begin_tree, list_machine::specs::Begin::begin_compiled))]
fn begin_tree(
    tree: &[u8],
    end: usize,
    out: &mut [u8],
    storage: &mut Storage,
    work: &mut WorkRoom,
) -> Begun
    ensures lent { LentAs storage.old storage.new × WorkLentAs work.old work.new }
    ensures left { BeginLeft (begin_tree tree.now end (rooms_in storage.old work.old)) out.old result (rooms_in storage.new work.new) out.new }
{
    match compile(tree, storage, work) {
        Ok(counts) => Begun {
            read: end,
            wrote: 0,
            due: Due::Rows(counts),
        },
        Err(refusal) => Begun {
            read: end,
            wrote: write_refused(out, u64::from(refusal.cause.number()), refusal.place as u64),
            due: Due::Nothing,
        },
    }
}
