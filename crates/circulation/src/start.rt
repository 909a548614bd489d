// The flows to start with, and the deficits of the nodes then.
ghost use Rattle.std.specs.Prelude.{◌≡◌, ℕ, ◌+◌, ◌≤◌, ◌<◌, length};
ghost use Rattle.circulation.specs.inside.Stores.{Apart};
ghost use Rattle.circulation.specs.inside.Slackness.{Countable, Filled, FilledAt, Small, inflow, outflow, pick};
ghost use Rattle.network.specs.WellFormed.{WellFormed};
ghost use Rattle.circulation.specs.Input.{Valid};
ghost use Rattle.network.specs.Net.{asks, at, high, low, net, stands};
ghost use Rattle.network.specs.Packed.{word_limit};
ghost use Rattle.network.specs.Limits.{most_nodes};
ghost use Rattle.network.specs.Nodes.{deficit_zero, deficits, potentials, size};

use crate::ends::{asks_at, stands_at};
use crate::limits::NO_FLOW;
use crate::nodes::{fill, get, put};
use network::inside::part_of;
use network::layout::{HEAD, HIGH, LOW, TAIL};
use network::nodes::{DEFICIT, DEFICIT_ZERO};
use std::cmp::Ordering;

// The flows to start with.
pub fn saturate(arcs: &[u32], flows: &mut [u32], nodes: &[u32])
    requires { Valid (net arcs.now (length flows.old)) (size nodes.now) (potentials nodes.now) }
    ensures { (i : ℕ) → i < length flows.old
        → FilledAt (net arcs.now (length flows.old)) (at (potentials nodes.now)) i
        (at flows.new i) }
{
    let m = flows.len();
    for (i, flow) in flows.iter_mut().enumerate() {
        *flow = first_flow(arcs, nodes, i, m) as u32;
    }
}

// What arc i's flow starts with.
pub fn first_flow(arcs: &[u32], nodes: &[u32], i: usize, m: usize) -> usize
    requires well_formed { WellFormed (net arcs.now m) (size nodes.now) }
    requires small { Small (at (potentials nodes.now)) }
    requires i_lt_m { i < m }
    ensures { FilledAt (net arcs.now m) (at (potentials nodes.now)) i result }
{
    let stands = stands_at(arcs, nodes, i, m);
    let asks = asks_at(arcs, nodes, i, m);
    filled(stands, asks, part_of(arcs, i, LOW), part_of(arcs, i, HIGH))
}

// The flow to start from, by where the head stands.
fn filled(stands: usize, asks: usize, low: usize, high: usize) -> usize
    ensures { Filled stands asks low high result }
{
    match stands.cmp(&asks) {
        Ordering::Less => low,
        Ordering::Equal => NO_FLOW,
        Ordering::Greater => high,
    }
}

// The deficit of each node.
pub fn count_deficits(arcs: &[u32], flows: &[u32], nodes: &mut [u32])
    requires well_formed { WellFormed (net arcs.now (length flows.now)) (size nodes.old) }
    requires countable { Countable (length flows.now) (at flows.now) }
    ensures by_index { (v : ℕ) → v < size nodes.old
        → at (deficits nodes.new) v
        + inflow (net arcs.now (length flows.now)) (length flows.now) (at flows.now) v
        ≡ deficit_zero
        + outflow (net arcs.now (length flows.now)) (length flows.now) (at flows.now) v }
    ensures apart { Apart 1 nodes.old nodes.new }
{
    fill(nodes, DEFICIT, DEFICIT_ZERO);
    for (i, flow) in flows.iter().enumerate() {
        let t = part_of(arcs, i, TAIL);
        let h = part_of(arcs, i, HEAD);
        charge(nodes, t, h, *flow as usize);
        charge(nodes, h, t, NO_FLOW);
    }
}

// Counts a units that flow out of t and into h.
pub fn charge(nodes: &mut [u32], t: usize, h: usize, a: usize)
    requires h_bound { (h < size nodes.old) × (t < size nodes.old) × (size nodes.old ≤ most_nodes) }
    requires a_bound { (at (deficits nodes.old) t + a < word_limit) × (a ≤ at (deficits nodes.old) h) }
    ensures by_index { (v : ℕ) → at (deficits nodes.new) v + pick h v a ≡ at (deficits nodes.old) v + pick t v a }
    ensures apart { Apart 1 nodes.old nodes.new }
{
    let more = get(nodes, t, DEFICIT) + a;
    put(nodes, t, DEFICIT, more);
    let less = get(nodes, h, DEFICIT) - a;
    put(nodes, h, DEFICIT, less);
}
