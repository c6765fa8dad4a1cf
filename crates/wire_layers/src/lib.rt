// The layer of every value of a circuit, and its depth: wire.rs's layers and depth, into a lent slice.
#![tactic(auto)]

ghost use Rattle.std.specs.Prelude.{◌≡◌, ◌+◌, length};
ghost use Rattle.wire_layers.specs.Layers.{largest, layer_of, form_depth, op_depth, layered_in, layers_in, layers_left_in};

use index::Wire;
use wire::{Circuit, Counts, Form, Op};

// The slice has no place for all cells and ops.
#[derive(Clone, Copy)]
pub struct ShortRoom;

// A layer: the cells are in layer 0, an op is one past the deepest value that it reads.
#[derive(Clone, Copy)]
pub struct Layer {}

impl Layer {
    // The most that a layer can be: one that a circuit of fewer than 2^32 ops never has to be cut to.
    pub const MOST: u32 = u32::MAX;
}

// The layer of a wire, 0 where it is past the values.
#[tactic(auto, unfolding(crate::specs::Layers::layer_of))]
fn layer_of(layers: &[u32], wire: Wire) -> u32
    ensures { result ≡ layer_of layers.now wire.0 }
{
    layers.get(wire.position()).copied().unwrap_or(0)
}

// The deepest layer of the wires that a form's look-up gives.
fn form_depth(f: Form, wires: &[u32], layers: &[u32]) -> u32
    ensures { result ≡ form_depth wires.now layers.now f }
{
    wire::part_of(f, wires)
        .iter()
        .map(|wire| layer_of(layers, Wire(*wire)))
        .max()
        .unwrap_or(0)
}

#[tactic(auto, unfolding(crate::specs::Layers::op_depth))]
fn op_depth(op: Option<Op>, wires: &[u32], layers: &[u32]) -> u32
    ensures { result ≡ op_depth wires.now layers.now op }
{
    match op {
        Some(Op::Affine(form)) => form_depth(form, wires, layers),
        Some(Op::Reglu { left, gate }) => {
            form_depth(left, wires, layers).max(form_depth(gate, wires, layers))
        }
        None => 0,
    }
}

// The layers, into a slice with a place for each value. An op is one past the deepest value that it reads, as far as a u32 goes; with fewer than
// 2^32 ops no layer is cut.
#[tactic(auto, unfolding(crate::specs::Layers::layers_after))]
fn lay_out(circuit: &Circuit, layers: &mut [u32])
    requires { length layers.old ≡ circuit.now.counts.cells + circuit.now.counts.ops }
    ensures { layers.new ≡ layers_in circuit.now circuit.now.counts.ops }
{
    layers.fill(0);
    for i in 0..circuit.counts.ops {
        let op = wire_read::op_at(circuit, i);
        let depth = op_depth(op, circuit.pools.wires, layers);
        layers[circuit.counts.cells + i] = depth.saturating_add(1);
    }
}

// The layer of every value, cells first. It depends on no coefficient.
#[tactic(auto, unfolding(crate::specs::Layers::layered, crate::specs::Layers::layers_left))]
pub fn layers(circuit: &Circuit, out: &mut [u32]) -> Result<(), ShortRoom>
    ensures value { result ≡ layered_in circuit.now (length out.old) }
    ensures out_after { out.new ≡ layers_left_in circuit.now out.old }
{
    let Counts { cells, ops, .. } = circuit.counts;
    if out.len() < cells || out.len() - cells < ops {
        return Err(ShortRoom);
    }
    lay_out(circuit, &mut out[..cells + ops]);
    Ok(())
}

// How many layers deep a circuit is, from the layers of its values: the largest.
#[tactic(auto, using(crate::proofs::Largest::largest_next, crate::proofs::Largest::largest_end))]
pub fn depth(layers: &[u32]) -> u32
    ensures { result ≡ largest (λ layer. layer) layers.now }
{
    // A loop: of a short list the library's `max` takes twice the time.
    let mut most = 0;
    for layer in layers {
        if most < *layer {
            most = *layer;
        }
    }
    most
}
