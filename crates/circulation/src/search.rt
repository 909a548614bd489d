// Searches: from a node with a deficit to one with an excess, and from ground to all.
ghost use Rattle.std.specs.Prelude.{◌≡◌, ◌≤◌, ◌<◌, length};
ghost use Rattle.circulation.specs.inside.Stores.{Begun, Reaches};
ghost use Rattle.circulation.specs.inside.Steps.{CrossingAt, Extended, Flooded, GrownAt, Searches, Source, StateAt};
ghost use Rattle.circulation.specs.inside.Search.{ResidualOver};
ghost use Rattle.network.specs.WellFormed.{WellFormed};
ghost use Rattle.circulation.specs.Input.{Limited, Rooted};
ghost use Rattle.network.specs.Net.{at, head, high, low, net, tail};
ghost use Rattle.network.specs.Packed.{word_limit};
ghost use Rattle.network.specs.Limits.{most_nodes};
ghost use Rattle.network.specs.Nodes.{deficit_zero, deficits, orders, residuals, size};

use crate::ends::{at_head, at_tail};
use crate::nodes::{count_of, fill, get, put};
use crate::raise::raise_reached;
use crate::step::choose;
use network::inside::part_of;
use network::layout::{HEAD, HIGH, LOW, TAIL};
use network::nodes::{DEFICIT, DEFICIT_ZERO, ORDER, PARENT, RESIDUAL};

// A node with less inflow than outflow, the last one.
pub fn source(nodes: &[u32]) -> Option<usize>
    requires { size nodes.now ≤ most_nodes }
    ensures { Source (size nodes.now) (at (deficits nodes.now)) result }
{
    (0..count_of(nodes))
        .rev()
        .find(|&v| get(nodes, v, DEFICIT) > DEFICIT_ZERO)
}

// Reaches nodes from s on until one has an excess. Each time the next arc is looked for from the last one on.
pub fn search(arcs: &[u32], flows: &[u32], nodes: &mut [u32], s: usize) -> usize
    requires state_at { StateAt (net arcs.now (length flows.now)) flows.now nodes.old }
    requires s_bound { (s < size nodes.old) × (deficit_zero < at (deficits nodes.old) s) }
    ensures { Searches (net arcs.now (length flows.now)) s
        flows.now nodes.old nodes.new result }
{
    let residual = get(nodes, s, DEFICIT) - DEFICIT_ZERO;
    begin(nodes, s, residual);
    // A loop: it ends at a node with an excess, and nothing stands behind it.
    let mut count = 1;
    let mut start = 0;
    loop {
        let v = extend(arcs, flows, nodes, start, s, count);
        if get(nodes, v, DEFICIT) < DEFICIT_ZERO {
            return v;
        }
        start = get(nodes, v, PARENT);
        count += 1;
    }
}

// Reaches every node from the ground, in the same way.
pub fn flood(arcs: &[u32], flows: &[u32], nodes: &mut [u32])
    requires state_at { StateAt (net arcs.now (length flows.now)) flows.now nodes.old }
    requires rooted { Rooted (net arcs.now (length flows.now)) (size nodes.old) }
    ensures { Flooded (net arcs.now (length flows.now)) (size nodes.old)
        flows.now nodes.new }
{
    let n = count_of(nodes);
    let g = n - 1;
    begin(nodes, g, 1);
    let mut start = 0;
    for count in 1..n {
        let v = extend(arcs, flows, nodes, start, g, count);
        start = get(nodes, v, PARENT);
    }
}

// Only s is reached.
fn begin(nodes: &mut [u32], s: usize, residual: usize)
    requires { (size nodes.old ≤ most_nodes) × (s < size nodes.old) × (residual < word_limit) }
    ensures { Begun s residual nodes.old nodes.new }
{
    fill(nodes, ORDER, 0);
    put(nodes, s, ORDER, 1);
    put(nodes, s, RESIDUAL, residual);
}

// Reaches one node more, over the arc of the least step, and moves the potentials so that this arc is on its kink. An arc from start
// on that is there already is the first choice.
fn extend(
    arcs: &[u32],
    flows: &[u32],
    nodes: &mut [u32],
    start: usize,
    s: usize,
    count: usize,
) -> usize
    requires grown_at { GrownAt (net arcs.now (length flows.now)) s count flows.now nodes.old }
    requires crossing_at { CrossingAt (net arcs.now (length flows.now)) flows.now nodes.old }
    ensures { Extended (net arcs.now (length flows.now)) s count
        flows.now nodes.old nodes.new result }
{
    let (i, d) = choose(arcs, flows, nodes, start);
    raise_reached(nodes, d);
    let v = far(arcs, nodes, i, flows.len());
    let residual = residual_over(arcs, flows, nodes, i, v);
    reach(nodes, v, count + 1, i, residual);
    v
}

// The end of arc i of m that is not reached; the other is.
fn far(arcs: &[u32], nodes: &[u32], i: usize, m: usize) -> usize
    requires well_formed { WellFormed (net arcs.now m) (size nodes.now) }
    requires i_lt_m { i < m }
    ensures value { at (orders nodes.now) (head (net arcs.now m) i) ≡ 0
        → result ≡ head (net arcs.now m) i }
    ensures value_2 { 0 < at (orders nodes.now) (head (net arcs.now m) i)
        → result ≡ tail (net arcs.now m) i }
{
    if at_head(arcs, nodes, i, ORDER, m) == 0 {
        return part_of(arcs, i, HEAD);
    }
    part_of(arcs, i, TAIL)
}

// What can be moved over arc i to its end v.
fn residual_over(arcs: &[u32], flows: &[u32], nodes: &[u32], i: usize, v: usize) -> usize
    requires well_formed { WellFormed (net arcs.now (length flows.now)) (size nodes.now) }
    requires i_in_bounds { i < length flows.now }
    requires i_bound { (low (net arcs.now (length flows.now)) i ≤ at flows.now i)
        × (at flows.now i ≤ high (net arcs.now (length flows.now)) i) }
    requires limited { Limited (net arcs.now (length flows.now)) }
    ensures residual_over { ResidualOver (net arcs.now (length flows.now)) (at flows.now)
        (at (residuals nodes.now)) i v result }
    ensures upper_bound { result < word_limit }
{
    let x = flows[i] as usize;
    if part_of(arcs, i, TAIL) == v {
        let end = at_head(arcs, nodes, i, RESIDUAL, flows.len());
        return end.min(part_of(arcs, i, HIGH) - x);
    }
    let end = at_tail(arcs, nodes, i, RESIDUAL, flows.len());
    end.min(x - part_of(arcs, i, LOW))
}

// Node v is reached.
fn reach(nodes: &mut [u32], v: usize, order: usize, parent: usize, residual: usize)
    requires { (v < size nodes.old) × (v < most_nodes) × (order < word_limit) × (parent < word_limit) × (residual < word_limit) }
    ensures { Reaches v order parent residual nodes.old nodes.new }
{
    put(nodes, v, ORDER, order);
    put(nodes, v, PARENT, parent);
    put(nodes, v, RESIDUAL, residual);
}
