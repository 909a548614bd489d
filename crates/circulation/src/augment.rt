// Moving flow to a deficit, along the arcs over which a search reached an excess.
ghost use Rattle.std.specs.Prelude.{◌≤◌, ◌<◌, length};
ghost use Rattle.circulation.specs.inside.Search.{Amount, Pushable, Pushed, Walked};
ghost use Rattle.circulation.specs.inside.Steps.{Augments, ReachedAt};
ghost use Rattle.network.specs.Net.{at, net};
ghost use Rattle.network.specs.Limits.{most_nodes};
ghost use Rattle.network.specs.Nodes.{deficit_zero, deficits, potentials, residuals, size};

use crate::nodes::get;
use crate::start::charge;
use network::inside::part_of;
use network::layout::{HEAD, TAIL};
use network::nodes::{DEFICIT, DEFICIT_ZERO, PARENT, RESIDUAL};

// Moves as much as can be between s, which has a deficit, and t, which has an excess.
pub fn augment(arcs: &[u32], flows: &mut [u32], nodes: &mut [u32], s: usize, t: usize)
    requires { ReachedAt (net arcs.now (length flows.old)) s t flows.old nodes.old }
    ensures { Augments (net arcs.now (length flows.old)) flows.new nodes.old
        nodes.new }
{
    let d = amount(nodes, s, t);
    walk(arcs, flows, nodes, s, t, d);
    charge(nodes, t, s, d);
}

// How much can be moved to t.
fn amount(nodes: &[u32], s: usize, t: usize) -> usize
    requires { (size nodes.now ≤ most_nodes) × (t < size nodes.now) × (at (deficits nodes.now) t < deficit_zero)
        × (0 < at (residuals nodes.now) t) }
    ensures { Amount s t result (at (deficits nodes.now)) (at (residuals nodes.now)) }
{
    (DEFICIT_ZERO - get(nodes, t, DEFICIT)).min(get(nodes, t, RESIDUAL))
}

// Walks back from t to s and moves d over each arc.
fn walk(arcs: &[u32], flows: &mut [u32], nodes: &[u32], s: usize, t: usize, d: usize)
    requires reached_at { ReachedAt (net arcs.now (length flows.old)) s t flows.old nodes.now }
    requires amount { Amount s t d (at (deficits nodes.now)) (at (residuals nodes.now)) }
    ensures { Walked (net arcs.now (length flows.old)) s t d (potentials nodes.now)
        (deficits nodes.now) flows.old flows.new }
{
    // A while: the next node is the other end of the arc that a node was reached over.
    let mut v = t;
    while v != s {
        v = push(arcs, flows, get(nodes, v, PARENT), v, d);
    }
}

// Moves d from the other end of arc i to v, and answers that end.
fn push(arcs: &[u32], flows: &mut [u32], i: usize, v: usize, d: usize) -> usize
    requires { Pushable (net arcs.now (length flows.old)) flows.old i v d }
    ensures { Pushed (net arcs.now (length flows.old)) flows.old i v d flows.new result }
{
    let t = part_of(arcs, i, TAIL);
    let x = flows[i] as usize;
    if t == v {
        flows[i] = (x + d) as u32;
        return part_of(arcs, i, HEAD);
    }
    flows[i] = (x - d) as u32;
    t
}
