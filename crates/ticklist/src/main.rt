// The listing program: from standard input a tree and then leaf rows, to standard output a line for each tick. Lines appear as rows come, and
// memory does not grow. Here the rooms are lent.
#![tactic(auto)]

mod lent;

ghost use Rattle.std.specs.Prelude.{OnOk};
ghost use Rattle.list_rows.specs.Listing.{listing};
ghost use Rattle.list_turns.specs.Lists.{Lists};

use compile::WorkRoom;
use lent::{
    biases_room, buffer_room, coefs_room, nums_room, wires_room, work_biases_room, work_coefs_room,
    work_nums_room, work_wires_room,
};
use list_turns::list;
use std::io;
use std::io::{Read, Write};
use wire::Storage;

fn main(rt: HostRuntime) {
    // Where a read or a write failed there is nobody left to tell.
    let _ = list_all(&mut rt.stdin(), &mut rt.stdout());
}

// The whole program, over any reader and writer.
fn list_all<R: Read, W: Write>(input: &mut R, output: &mut W) -> io::Result<()>
    ensures { OnOk result (Lists listing (R.remaining input.old) (R.remaining input.new) (W.contents output.old) (W.contents output.new)) }
{
    let mut buffer = buffer_room();
    let mut nums = nums_room();
    let mut biases = biases_room();
    let mut wires = wires_room();
    let mut coefs = coefs_room();
    let mut work_nums = work_nums_room();
    let mut work_biases = work_biases_room();
    let mut work_wires = work_wires_room();
    let mut work_coefs = work_coefs_room();
    let mut storage = Storage {
        nums: &mut nums,
        biases: &mut biases,
        wires: &mut wires,
        coefs: &mut coefs,
    };
    let mut work = WorkRoom {
        nums: &mut work_nums,
        biases: &mut work_biases,
        wires: &mut work_wires,
        coefs: &mut work_coefs,
    };
    list(input, output, &mut buffer, &mut storage, &mut work)
}
