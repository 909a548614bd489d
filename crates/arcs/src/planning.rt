// What is known of a good sheet before its arcs are filled in.
ghost use Rattle.std.specs.Prelude.{◌≡◌, ◌≤◌, ◌<◌, length, drop};
ghost use Rattle.std.proofs.lemmas.List.Edits.{sets};
ghost use Rattle.sheet.specs.Limits.{max_nodes, max_layers};
ghost use Rattle.sheet.specs.Layout.{first_layer_at};
ghost use Rattle.drawing.specs.laws.Good.{GoodLayers, Good};
ghost use Rattle.arcs.specs.inside.Plans.{FirstNodes, Planned};

use crate::Plan;
use crate::numbers::{layer_size, number};
use sheet::layout::{FIRST_LAYER, LAYERS};

// The first node of each layer, and last the count of nodes; answers the index behind the layers.
fn first_nodes(numbers: &[u16], layers: usize, first: &mut [u16]) -> usize
    requires good_layers { GoodLayers max_nodes layers 0 (drop first_layer_at numbers.now) }
    requires first_layer_at_in_bounds { (first_layer_at ≤ length numbers.now) × (layers < length first.old) }
    ensures { FirstNodes numbers.now layers first.old first.new result }
{
    let mut at = FIRST_LAYER;
    let mut v = 0;
    for layer in 0..layers {
        let count = number(numbers, at);
        first[layer] = v as u16;
        at += layer_size(count);
        v += count;
    }
    first[layers] = v as u16;
    at
}

// The counts of a sheet, and the first node of each of its layers.
pub fn plan(numbers: &[u16], first: &mut [u16]) -> Plan
    requires good { Good max_nodes numbers.now }
    requires max_layers_in_bounds { max_layers < length first.old }
    ensures { Planned numbers.now first.new result }
{
    let layers = number(numbers, LAYERS);
    let behind = first_nodes(numbers, layers, first);
    let nodes = usize::from(first[layers]);
    let edges = number(numbers, behind);
    Plan {
        layers,
        behind,
        nodes,
        edges,
    }
}

// Copies first nodes into the front of a slice.
pub fn put_firsts(found: &[u16], first: &mut [u16])
    requires { length found.now ≤ length first.old }
    ensures { first.new ≡ sets first.old 0 found.now }
{
    first[..found.len()].copy_from_slice(found);
}
