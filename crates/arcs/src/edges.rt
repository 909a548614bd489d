// The edges off their numbers.
ghost use Rattle.std.specs.Prelude.{◌≡◌, ◌+◌, ◌≤◌, ◌<◌, length, drop};
ghost use Rattle.leb128.specs.Limits.{list_limit};
ghost use Rattle.sheet.specs.Limits.{max_nodes};
ghost use Rattle.sheet.specs.Layout.{edge_stride};
ghost use Rattle.drawing.specs.Sheet.{«node_at», «edge_of»};
ghost use Rattle.drawing.specs.laws.Good.{GoodEdge};
ghost use Rattle.arcs.specs.inside.Traces.{strength_of, «as_read»};

use crate::ReadEdge;
use crate::numbers::number;
use sheet::layout::{EDGE_KIND, EDGE_LAYER, EDGE_LOWER, EDGE_UPPER};
use sheet::limits::MAX_WEIGHT;

// The strength of a straight edge: one more than every weight.
const STRAIGHT: u8 = MAX_WEIGHT as u8 + 1;

// The edge whose numbers stand at an index.
pub fn edge_at(numbers: &[u16], at: usize, first: &[u16]) -> ReadEdge
    requires good_edge { GoodEdge max_nodes first.now (drop at numbers.now) }
    requires edge_stride_in_bounds { at + edge_stride ≤ length numbers.now }
    ensures { result ≡ as_read (edge_of first.now (drop at numbers.now)) }
{
    let layer = number(numbers, at + EDGE_LAYER);
    let above = number(numbers, at + EDGE_UPPER);
    let below = number(numbers, at + EDGE_LOWER);
    let kind = number(numbers, at + EDGE_KIND);
    let upper = node_at(first, layer, above);
    let lower = node_at(first, layer + 1, below);
    let amount = strength(kind);
    ReadEdge {
        upper,
        lower,
        strength: amount,
    }
}

// The node at a layer and a position, which count from 1.
fn node_at(first: &[u16], layer: usize, position: usize) -> usize
    requires { (1 ≤ layer) × (layer ≤ length first.now) × (1 ≤ position) × (position < list_limit) }
    ensures { result ≡ node_at first.now layer position }
{
    usize::from(first[layer - 1]) + (position - 1)
}

// The strength of an edge by its kind; the weight of every edge is 1.
fn strength(kind: usize) -> u8
    ensures { result ≡ strength_of kind 1 }
{
    if kind == 0 {
        return 1;
    }
    STRAIGHT
}
