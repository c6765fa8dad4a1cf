// Reading from the input.
ghost use Rattle.std.specs.Prelude.{◌≡◌, ◌+◌, ◌<◌, ◌≤◌, ◌↔◌, length, take, drop, IfOk, IsTrue, OnOk};
ghost use Rattle.std.specs.Io.KnownBytes.{Consumes, IsAtEnd};
ghost use Rattle.list_text.specs.declared.outer.Outer.TheVariants as is;
ghost use Rattle.list_text.specs.Outer.{outer_at};

use list_text::{Outer, outer_at};
use std::io;
use std::io::{ErrorKind, Read};

// Reads until the record that stands first is whole or bad, or the input ends, and answers how many bytes are there. A read that fails ends the input.
pub fn read_front<R: Read>(input: &mut R, buffer: &mut [u8]) -> usize
    ensures { result ≤ length buffer.new }
{
    let (have, _) = front(input, buffer);
    have
}

// The same, where a read that fails is told.
pub(crate) fn read_whole<R: Read>(input: &mut R, buffer: &mut [u8]) -> io::Result<usize>
    requires { 65536 < length buffer.old }
    ensures room { IfOk result (λ have. have ≤ length buffer.new) }
    ensures bytes { IfOk result (λ have. Consumes (R.remaining input.old) (R.remaining input.new) (take have buffer.new)) }
    ensures end { IfOk result (λ have. outer_at (take have buffer.new) 0 ≡ is.Cut → IsAtEnd (R.remaining input.new)) }
{
    let (have, read) = front(input, buffer);
    match read {
        Ok(()) => Ok(have),
        Err(failed) => Err(failed),
    }
}

// How many bytes are there, and whether a read failed. Nothing says that the input ends, so the reads are counted up to a number that no run uses up.
fn front<R: Read>(input: &mut R, buffer: &mut [u8]) -> (usize, io::Result<()>)
    ensures room { result.0 ≤ length buffer.new }
    ensures bytes { OnOk result.1 (Consumes (R.remaining input.old) (R.remaining input.new) (take result.0 buffer.new)) }
    ensures end { OnOk result.1 (65536 < length buffer.new → outer_at (take result.0 buffer.new) 0 ≡ is.Cut → IsAtEnd (R.remaining input.new)) }
{
    let mut have = 0;
    for _ in 0..u64::MAX {
        if !is_cut(&buffer[..have]) {
            return (have, Ok(()));
        }
        match read_some(input, buffer, have) {
            Ok(0) => return (have, Ok(())),
            Ok(more) => have += more,
            Err(failed) => return (have, Err(failed)),
        }
    }
    (have, Err(io::Error::from(ErrorKind::Other)))
}

// One read behind the bytes that are there, and how many came: none at the end of the input.
pub(crate) fn read_some<R: Read>(input: &mut R, buffer: &mut [u8], have: usize) -> io::Result<usize>
    requires { have ≤ length buffer.old }
    ensures room { IfOk result (λ n. have + n ≤ length buffer.old) }
    ensures before { take have buffer.new ≡ take have buffer.old }
    ensures bytes { IfOk result (λ n. Consumes (R.remaining input.old) (R.remaining input.new) (take n (drop have buffer.new))) }
    ensures end { IfOk result (λ n. n ≡ 0 → have < length buffer.old → IsAtEnd (R.remaining input.new)) }
{
    input.read(&mut buffer[have..])
}

// Whether the record that stands first still lacks bytes. One that does is short.
#[tactic(auto, using(list_machine::proofs::Room::low_short))]
fn is_cut(bytes: &[u8]) -> bool
    ensures value { IsTrue result ↔ (outer_at bytes.now 0 ≡ is.Cut) }
    ensures short { outer_at bytes.now 0 ≡ is.Cut → length bytes.now ≤ 65536 }
{
    matches!(outer_at(bytes, 0), Outer::Cut)
}
