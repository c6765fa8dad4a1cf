// Writing to the output.
ghost use Rattle.std.specs.Prelude.{◌≤◌, length, take, OnOk};
ghost use Rattle.std.specs.Io.KnownBytes.{Appends};
ghost use Rattle.list_ends.specs.Ends.{last_line};

use list_ends::finish;
use std::io;
use std::io::{ErrorKind, Write};

// Writes the first so many bytes. A text longer than its buffer was not put there.
pub(crate) fn show<W: Write>(output: &mut W, out: &[u8], wrote: usize) -> io::Result<()>
    ensures room { OnOk result (wrote ≤ length out.now) }
    ensures written { OnOk result (Appends (W.contents output.old) (W.contents output.new) (take wrote out.now)) }
{
    let Some(text) = out.get(..wrote) else {
        return Err(io::Error::from(ErrorKind::Other));
    };
    output.write_all(text)
}

// Writes what the end of the input asks for where so many bytes are left.
pub(crate) fn show_last<W: Write>(output: &mut W, left: usize) -> io::Result<()>
    ensures { OnOk result (Appends (W.contents output.old) (W.contents output.new) (last_line left)) }
{
    let mut out = [0; 64];
    let wrote = finish(left, &mut out);
    show(output, &out, wrote)
}
