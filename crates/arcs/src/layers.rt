// The arcs of the layers: boundaries and separations.
ghost use mathlib.Core.List.{flat_map};
ghost use Rattle.std.specs.Prelude.{◌+◌, ◌*◌, ◌≤◌, ◌<◌, length, get_or, drop};
ghost use Rattle.leb128.specs.inside.Storing.{Puts};
ghost use Rattle.sheet.specs.Limits.{max_nodes};
ghost use Rattle.sheet.specs.Layout.{first_layer_at, nodes_at, separation_stride};
ghost use Rattle.network.specs.Packed.{stride, packs, kink_zero};
ghost use Rattle.drawing.specs.Sheet.{«pairs_of»};
ghost use Rattle.drawing.specs.Arcs.{separation_arcs, layer_arcs};
ghost use Rattle.drawing.specs.laws.Good.{GoodLayer, GoodLayers};
ghost use Rattle.arcs.specs.inside.Pieces.{pair_at, layer_at, layers_arcs};

use crate::Frame;
use crate::numbers::{layer_size, number};
use crate::pack::{maximum, put_arc, upper_bound};
use network::layout::KINK_ZERO;
use sheet::layout::{FIRST_LAYER, MAXIMUM, MINIMUM, SEPARATION_STRIDE, SEPARATIONS};

// Writes the arcs of the pair whose separations stand at an index, the minimum's and the maximum's; answers the index
// behind them.
fn put_pair(numbers: &[u16], at: usize, v: usize, arcs: &mut [u32], n: usize) -> usize
    requires { (at + separation_stride ≤ length numbers.now) × (v < max_nodes) × (n + 2 * stride ≤ length arcs.old) }
    ensures { Puts arcs.old n (packs (separation_arcs (pair_at v (drop at numbers.now))))
        arcs.new result }
{
    let least = number(numbers, at + MINIMUM);
    let greatest = number(numbers, at + MAXIMUM);
    let m = put_arc(arcs, n, upper_bound(v + 1, v, KINK_ZERO - least));
    put_arc(arcs, m, maximum(v, greatest))
}

// Writes the arcs of count pairs, the first one of node first and its right neighbour; answers the index behind them.
fn put_pairs(
    numbers: &[u16],
    start: usize,
    count: usize,
    first: usize,
    arcs: &mut [u32],
    n: usize,
) -> usize
    requires { (start + separation_stride * count ≤ length numbers.now) × (first + count ≤ max_nodes)
        × (n + 2 * stride * count ≤ length arcs.old) }
    ensures { Puts arcs.old n
        (packs (flat_map separation_arcs (pairs_of count first (drop start numbers.now)))) arcs.new result }
{
    let mut m = n;
    for k in 0..count {
        m = put_pair(numbers, start + SEPARATION_STRIDE * k, first + k, arcs, m);
    }
    m
}

// Writes the arcs of the layer that starts at node v and whose numbers stand at an index: left boundary, pairs, right
// boundary; answers the index behind them.
fn put_layer(
    numbers: &[u16],
    at: usize,
    v: usize,
    frame: Frame,
    arcs: &mut [u32],
    n: usize,
) -> usize
    requires good_layer { GoodLayer max_nodes v (drop at numbers.now) }
    requires ground_le_max_nodes { (frame.ground ≤ max_nodes) × (frame.width < kink_zero)
        × (n + 2 * stride * get_or (drop at numbers.now) nodes_at 0 ≤ length arcs.old) }
    ensures { Puts arcs.old n
        (packs (layer_arcs frame.width frame.ground (layer_at v (drop at numbers.now)))) arcs.new result }
{
    let count = number(numbers, at);
    let width = frame.width;
    let ground = frame.ground;
    let left = put_arc(arcs, n, upper_bound(v, ground, KINK_ZERO));
    let pairs = put_pairs(numbers, at + SEPARATIONS, count - 1, v, arcs, left);
    put_arc(
        arcs,
        pairs,
        upper_bound(ground, v + (count - 1), KINK_ZERO + width),
    )
}

// Writes the arcs of all layers; answers the index behind them.
pub fn put_layers(numbers: &[u16], layers: usize, frame: Frame, arcs: &mut [u32], n: usize) -> usize
    requires good_layers { GoodLayers max_nodes layers 0 (drop first_layer_at numbers.now) }
    requires first_layer_at_in_bounds { (first_layer_at ≤ length numbers.now) × (frame.ground ≤ max_nodes) × (frame.width < kink_zero) }
    requires ground_in_bounds { n + stride * length (layers_arcs numbers.now layers frame.width frame.ground) ≤ length arcs.old }
    ensures { Puts arcs.old n (packs (layers_arcs numbers.now layers frame.width frame.ground))
        arcs.new result }
{
    let mut at = FIRST_LAYER;
    let mut v = 0;
    let mut m = n;
    for layer in 0..layers {
        let count = number(numbers, at);
        m = put_layer(numbers, at, v, frame, arcs, m);
        at += layer_size(count);
        v += count;
    }
    m
}
