// The whole: the tree, then the rows.
ghost use Rattle.std.specs.Prelude.{◌≡◌, OnOk, IfOk};
ghost use Rattle.tick_check.specs.Check.{stored, stored_in};
ghost use Rattle.compile.specs.Lending.{lent_in};
ghost use Rattle.list_rows.specs.Listing.{storage_lent, listing};
ghost use Rattle.list_machine.specs.Begin.{begin_of};
ghost use Rattle.list_start.specs.Left.{rooms_in};
ghost use Rattle.list_turns.specs.Lists.{Lists};
ghost use Rattle.list_turns.specs.Went.{Begins};

use crate::input::read_whole;
use crate::output::{show, show_last};
use crate::rows::list_all;
use compile::WorkRoom;
use list_start::{Begun, Due, begin};
use list_text::LINE_ROOM;
use std::io;
use std::io::{ErrorKind, Read, Write};
use wire::{Circuit, Counts, Pools, Storage};

// Reads the tree and the rows, and writes the listing of what it has read: of all that the reader has, or up to where the run ends. A read that fails
// ends the input, and a write that fails the run.
pub fn list<R: Read, W: Write>(
    input: &mut R,
    output: &mut W,
    buffer: &mut [u8],
    storage: &mut Storage,
    work: &mut WorkRoom,
) -> io::Result<()>
    ensures { lent_in storage.old work.old ≡ storage_lent
        → OnOk result (Lists listing (R.remaining input.old) (R.remaining input.new) (W.contents output.old) (W.contents output.new)) }
{
    // A record that still lacks bytes has 65,536 of them at most.
    if buffer.len() <= 65536 {
        return Err(io::Error::from(ErrorKind::Other));
    }
    let have = match read_whole(input, buffer) {
        Ok(have) => have,
        Err(failed) => {
            show_last(output, 1)?;
            return Err(failed);
        }
    };
    let begun = start(output, &buffer[..have], storage, work)?;
    match begun.due {
        Due::Rows(counts) => {
            let circuit = circuit_in(storage, counts);
            list_all(input, output, buffer, begun.read, have, &circuit)
        }
        Due::More => show_last(output, 1),
        Due::Nothing => Ok(()),
    }
}

// Compiles the tree of the record that stands first, and writes the line that it asks for.
fn start<W: Write>(
    output: &mut W,
    bytes: &[u8],
    storage: &mut Storage,
    work: &mut WorkRoom,
) -> io::Result<Begun>
    ensures { IfOk result (λ begun. Begins (begin_of (rooms_in storage.old work.old) bytes.now) begun (rooms_in storage.new work.new)
        (W.contents output.old) (W.contents output.new)) }
{
    let mut line = [0; LINE_ROOM];
    let begun = begin(bytes, &mut line, storage, work);
    show(output, &line, begun.wrote)?;
    Ok(begun)
}

// The circuit that stands in storage.
fn circuit_in<'a>(storage: &'a Storage, counts: Counts) -> Circuit<'a>
    ensures { stored_in result ≡ stored counts storage.now.nums.now storage.now.biases.now storage.now.wires.now storage.now.coefs.now }
{
    Circuit {
        counts,
        nums: &*storage.nums,
        biases: &*storage.biases,
        pools: Pools {
            wires: &*storage.wires,
            coefs: &*storage.coefs,
        },
    }
}
