// Validation of the values of a circuit's output forms: six a node (success, failure, running, reached, halted, next running), then one a cursor.
#![tactic(auto)]

ghost use Rattle.std.specs.Prelude.{◌≡◌, ◌+◌, ◌*◌, ◌≤◌, ◌<◌, length};
ghost use Rattle.tick_verdict.specs.Verdict.{bit, one_hot, statuses, marks, node_at, cursor, cursor_at, low, low_at, first_of, values_verdict, tick_verdict};

use index::{CursorCell, NodeIndex};

// A value that is not what it must be: which rule it breaks, where, and the offending float.
#[derive(Clone, Copy)]
pub enum InvariantError {
    NotABit(NodeIndex, f32),
    NotOneHot(NodeIndex, f32),
    BadCursor(CursorCell, f32),
}

fn bit(node: NodeIndex, x: f32) -> Result<(), InvariantError>
    ensures { result ≡ bit node x }
{
    if !exact::is_bit(x) {
        return Err(InvariantError::NotABit(node, x));
    }
    Ok(())
}

fn one_hot(node: NodeIndex, total: f32) -> Result<(), InvariantError>
    ensures { result ≡ one_hot node total }
{
    if total > 1.0 {
        return Err(InvariantError::NotOneHot(node, total));
    }
    Ok(())
}

fn statuses(node: NodeIndex, success: f32, failure: f32, running: f32) -> Result<(), InvariantError>
    ensures { result ≡ statuses node success failure running }
{
    bit(node, success)?;
    bit(node, failure)?;
    bit(node, running)?;
    one_hot(node, success + failure + running)
}

fn marks(node: NodeIndex, reached: f32, halted: f32, next: f32) -> Result<(), InvariantError>
    ensures { result ≡ marks node reached halted next }
{
    bit(node, reached)?;
    bit(node, halted)?;
    bit(node, next)
}

fn node(outs: &[f32], i: usize) -> Result<(), InvariantError>
    requires { 6 * i + 5 < length outs.now }
    ensures { result ≡ node_at outs.now i }
{
    let at = 6 * i;
    statuses(NodeIndex(i), outs[at], outs[at + 1], outs[at + 2])?;
    marks(NodeIndex(i), outs[at + 3], outs[at + 4], outs[at + 5])
}

#[tactic(auto, using(crate::proofs::First::first_stop))]
fn nodes_verdict(outs: &[f32], nodes: usize) -> Result<(), InvariantError>
    requires { 6 * nodes ≤ length outs.now }
    ensures { result ≡ first_of (node_at outs.now) nodes }
{
    for i in 0..nodes {
        node(outs, i)?;
    }
    Ok(())
}

fn cursor(cell: CursorCell, x: f32) -> Result<(), InvariantError>
    ensures { result ≡ cursor cell x }
{
    if !exact::is_natural(x) {
        return Err(InvariantError::BadCursor(cell, x));
    }
    Ok(())
}

#[tactic(auto, using(crate::proofs::First::first_stop))]
fn cursors_verdict(outs: &[f32], nodes: usize, cursors: usize) -> Result<(), InvariantError>
    requires { 6 * nodes + cursors ≤ length outs.now }
    ensures { result ≡ first_of (cursor_at outs.now nodes) cursors }
{
    for i in 0..cursors {
        cursor(CursorCell(i), outs[6 * nodes + i])?;
    }
    Ok(())
}

fn low(cell: CursorCell, x: f32) -> Result<(), InvariantError>
    ensures { result ≡ low cell x }
{
    let fine = x <= 65535.0;
    if !fine {
        return Err(InvariantError::BadCursor(cell, x));
    }
    Ok(())
}

// Another loop than the one above, since all next cursors are found whole before one is asked whether it is low.
#[tactic(auto, using(crate::proofs::First::first_stop))]
fn lows_verdict(outs: &[f32], nodes: usize, cursors: usize) -> Result<(), InvariantError>
    requires { 6 * nodes + cursors ≤ length outs.now }
    ensures { result ≡ first_of (low_at outs.now nodes) cursors }
{
    for i in 0..cursors {
        low(CursorCell(i), outs[6 * nodes + i])?;
    }
    Ok(())
}

// As `validate` in lower.rs, of the output forms' values.
pub fn values_verdict(outs: &[f32], nodes: usize, cursors: usize) -> Result<(), InvariantError>
    requires { 6 * nodes + cursors ≤ length outs.now }
    ensures { result ≡ values_verdict outs.now nodes cursors }
{
    nodes_verdict(outs, nodes)?;
    cursors_verdict(outs, nodes, cursors)
}

// A tick's: validation, and then that no next cursor is above 65,535.
pub fn tick_verdict(outs: &[f32], nodes: usize, cursors: usize) -> Result<(), InvariantError>
    requires { 6 * nodes + cursors ≤ length outs.now }
    ensures { result ≡ tick_verdict outs.now nodes cursors }
{
    values_verdict(outs, nodes, cursors)?;
    lows_verdict(outs, nodes, cursors)
}
