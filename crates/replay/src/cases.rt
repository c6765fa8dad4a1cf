// A case: a tree's bytes, and what is due for them.
ghost use Rattle.std.specs.Prelude.{◌≤◌, length};

use crate::case_lists::lists;
use crate::lines::{Line, Mismatch, Reader, short};
use crate::room;
use crate::ticks::ticks;
use tree_record::Refusal;
use wire::{Circuit, Pools, Storage};

// The case that begins with a line.
pub(crate) fn case<'a>(first: Line<'a>, lines: &mut Reader<'a>) -> Result<(), Mismatch<'a>>
    ensures { length lines.new.rest.now ≤ length lines.old.rest.now }
{
    first.check(first.begins_with(b'b'))?;
    let mut bytes = [0; 4096];
    let mut size = first.read_bytes(&mut bytes, 0);
    while let Some(more) = lines.line_if(b'a') {
        size = more.read_bytes(&mut bytes, size);
    }
    let Some(tree) = bytes.get(..size) else {
        return Err(Mismatch::Line(first));
    };
    answer(lines, tree)
}

// What is due for these bytes, against what compiling them gives.
fn answer<'a>(lines: &mut Reader<'a>, tree: &[u8]) -> Result<(), Mismatch<'a>>
    ensures { length lines.new.rest.now ≤ length lines.old.rest.now }
{
    let mut nums = room::nums();
    let mut biases = room::biases();
    let mut wires = room::wires();
    let mut coefs = room::coefs();
    let mut storage = Storage {
        nums: &mut nums,
        biases: &mut biases,
        wires: &mut wires,
        coefs: &mut coefs,
    };
    match room::compile(tree, &mut storage) {
        Err(refusal) => refused(lines.line()?, tree, refusal),
        Ok(counts) => {
            let pools = Pools {
                wires: &wires,
                coefs: &coefs,
            };
            let circuit = Circuit {
                counts,
                nums: &nums,
                biases: &biases,
                pools,
            };
            lists(lines, tree, &circuit)?;
            ticks(lines, &circuit)
        }
    }
}

// A refusal: compile's, and flatten's too.
fn refused<'a>(line: Line<'a>, tree: &[u8], refusal: Refusal) -> Result<(), Mismatch<'a>> {
    refusal_agrees(line, refusal)?;
    let mut kinds = [0; 128];
    let mut children = [0; 128];
    match tree::flatten(tree, &mut kinds, &mut children) {
        Err(found) => refusal_agrees(line, found),
        Ok(_) => Err(Mismatch::Line(line)),
    }
}

// A refusal's number, place and kind.
fn refusal_agrees<'a>(line: Line<'a>, refusal: Refusal) -> Result<(), Mismatch<'a>> {
    let cause = refusal.cause;
    let values = [
        u32::from(cause.number()),
        short(refusal.place),
        u32::from(cause.kind()),
    ];
    line.holds(b'x', &values, values.len())
}
