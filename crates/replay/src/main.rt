// Replays the stored cases from standard input on the proved crates, with nothing else at hand: each case's bytes are compiled; its refusal, or
// its lists, its counts and each of its ticks, are compared with what the lines say. Prints how many cases and ticks there are and `ok`, or the
// first line that is not so. The head of the stored cases explains the lines; a line that is missing or out of turn is not so either.
#![tactic(auto)]

mod case_lists;
mod cases;
mod lines;
mod room;
mod ticks;

use lines::{Mismatch, Reader, begins_with};
use std::io::Write;

fn main(rt: HostRuntime) {
    let mut space = room::text();
    let n = io::read_full(0, &mut space);
    // Where a write failed there is nobody left to tell.
    let _ = replay(&rt, &space[..n]);
}

fn replay(rt: &impl Print, text: &[u8]) -> std::io::Result<()> {
    let cases = count_lines(text, b'b');
    let ticks = count_lines(text, b'f');
    print!(rt; "{cases} cases, {ticks} ticks, ")?;
    match cases_of(text) {
        Ok(()) => println!(rt; "ok"),
        Err(Mismatch::EndsEarly) => println!(rt; "not so: the text ends early"),
        Err(Mismatch::Line(line)) => {
            print!(rt; "not so: line {}: ", line.number())?;
            std::io::writer(rt).write_all(line.bytes)?;
            println!(rt; "")
        }
    }
}

// All cases, one after the other; a line that says nothing begins with #.
fn cases_of(text: &[u8]) -> Result<(), Mismatch<'_>> {
    let mut lines = Reader::new(text);
    while let Ok(line) = lines.line() {
        if !line.begins_with(b'#') {
            cases::case(line, &mut lines)?;
        }
    }
    Ok(())
}

// How many lines begin with a letter.
fn count_lines(text: &[u8], letter: u8) -> usize {
    text.split(|byte| *byte == b'\n')
        .filter(|line| begins_with(line, letter))
        .count()
}
