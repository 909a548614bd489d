// The ends and weights of packed edges, and the coordinates of nodes.
ghost use Rattle.std.specs.Prelude.{◌≡◌, ◌<◌, get_or};
ghost use Rattle.network.specs.Packed.{stride};
ghost use Rattle.leb128.specs.Words.{Small};
ghost use Rattle.packed.specs.Ends.{edge_from, upper_at, lower_at, weight_of, weight_at};

use network::layout::{FLOW_ZERO, HEAD, HIGH, HIGH_NONE, STRIDE, TAIL};

// The upper end of packed edge i; 0 if there is no such edge.
pub fn edge_upper(arcs: &[u32], i: usize) -> u32
    ensures { result ≡ upper_at (edge_from i arcs.now) }
{
    field(arcs, i, TAIL)
}

// The lower end of packed edge i; 0 if there is no such edge.
pub fn edge_lower(arcs: &[u32], i: usize) -> u32
    ensures { result ≡ lower_at (edge_from i arcs.now) }
{
    field(arcs, i, HEAD)
}

// The weight of packed edge i, which its length is multiplied by; that of a straight edge is 0, and 0 if there is no such edge.
pub fn edge_weight(arcs: &[u32], i: usize) -> u32
    ensures { result ≡ weight_at (edge_from i arcs.now) }
{
    weight(field(arcs, i, HIGH))
}

// The coordinate (place) of a node; 0 if there is none, as at ground.
pub fn place(places: &[u16], v: usize) -> usize
    ensures { Small result (get_or places.now v 0) }
{
    usize::from(places.get(v).copied().unwrap_or(0))
}

// A number of packed edge i; 0 if there is no such edge.
fn field(arcs: &[u32], i: usize, at: usize) -> u32
    requires { at < stride }
    ensures { result ≡ get_or (edge_from i arcs.now) at 0 }
{
    // By index: nth of chunks_exact would go through all arcs before it.
    if arcs.len() / STRIDE <= i {
        return 0;
    }
    arcs[STRIDE * i + at]
}

// The weight that a high limit stands for.
fn weight(high: u32) -> u32
    ensures { result ≡ weight_of high }
{
    if high == HIGH_NONE {
        return 0;
    }
    high.saturating_sub(FLOW_ZERO)
}
