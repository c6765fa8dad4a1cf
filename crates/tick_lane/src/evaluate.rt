// A checked circuit's value table and the values of its output forms. Inner: each function asks that the circuit has passed its check.
ghost use Rattle.std.specs.Prelude.{◌≡◌, ◌+◌, ◌*◌, ◌≤◌, length};
ghost use Rattle.wire.specs.Storage.{output_count};
ghost use Rattle.lists.specs.Fill.{fill_at};
ghost use Rattle.tick_check.specs.Check.{stored_in};
ghost use Rattle.tick_check.specs.Checked.{Checked};
ghost use Rattle.tick_lane.specs.Evaluate.{bit, flag_cell, cursor_cell, leaves_at, table_of, out_value};

use crate::answers::is_running;
use wire::{Circuit, Nums};

fn bit(b: bool) -> f32
    ensures { result ≡ bit b }
{
    if b { 1.0 } else { 0.0 }
}

#[tactic(auto, unfolding(lists::specs::Fill::fill_at))]
fn put_flags(table: &mut [f32], flags: &[u8])
    requires { length flags.now ≤ length table.old }
    ensures { table.new ≡ fill_at 0 (flag_cell flags.now) table.old (length flags.now) }
{
    for (i, flag) in flags.iter().enumerate() {
        table[i] = bit(is_running(*flag));
    }
}

#[tactic(auto, unfolding(lists::specs::Fill::fill_at))]
fn put_cursors(table: &mut [f32], cursors: &[u32], base: usize)
    requires { base + length cursors.now ≤ length table.old }
    ensures { table.new ≡ fill_at base (cursor_cell cursors.now) table.old (length cursors.now) }
{
    for (i, cursor) in cursors.iter().enumerate() {
        table[base + i] = exact::of_cursor(*cursor);
    }
}

#[tactic(auto, unfolding(crate::specs::Evaluate::leaves_at))]
fn put_leaves(table: &mut [f32], row: &[u8], base: usize)
    requires { base + 3 * length row.now ≤ length table.old }
    ensures { table.new ≡ leaves_at base row.now table.old (length row.now) }
{
    for (i, status) in row.iter().enumerate() {
        let at = base + 3 * i;
        table[at] = bit(*status == 0);
        table[at + 1] = bit(*status == 1);
        table[at + 2] = bit(*status == 2);
    }
}

// The value table: the input cells, then all ops.
#[tactic(auto, using(crate::proofs::Cells::cells_length), unfolding(crate::specs::Evaluate::table_of, crate::specs::Evaluate::cells_of))]
pub fn fill_table(circuit: &Circuit, row: &[u8], flags: &[u8], cursors: &[u32], table: &mut [f32])
    requires checked { Checked (stored_in circuit.now) }
    requires lengths { (length row.now ≡ circuit.now.counts.leaves) × (length flags.now ≡ circuit.now.counts.nodes)
        × (length cursors.now ≡ circuit.now.counts.cursors)
        × (circuit.now.counts.cells + circuit.now.counts.ops ≤ length table.old) }
    ensures { table.new ≡ table_of (stored_in circuit.now) row.now flags.now cursors.now table.old }
{
    put_flags(table, flags);
    put_cursors(table, cursors, flags.len());
    put_leaves(table, row, flags.len() + cursors.len());
    wire_pool::run_ops(circuit, table, circuit.counts.ops);
}

// The values of the output forms against a table.
#[tactic(auto, using(wire_pool::proofs::Sums::more_readable), unfolding(lists::specs::Fill::fill_at, crate::specs::Evaluate::out_value, wire::specs::Storage::output_at))]
pub fn read_outs(circuit: &Circuit, table: &[f32], outs: &mut [f32])
    requires checked { Checked (stored_in circuit.now) }
    requires ops_in_bounds { (circuit.now.counts.cells + circuit.now.counts.ops ≤ length table.now)
        × (output_count circuit.now.counts ≤ length outs.old) }
    ensures { outs.new ≡ fill_at 0 (out_value (stored_in circuit.now) table.now) outs.old (output_count circuit.now.counts) }
{
    for k in 0..6 * circuit.counts.nodes + circuit.counts.cursors {
        let form = wire_pool::form_at(circuit, Nums::OUTPUTS + Nums::PER_FORM * k, k);
        outs[k] = wire_pool::sum(form, circuit.pools, table);
    }
}
