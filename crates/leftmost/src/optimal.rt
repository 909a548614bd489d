// The test of a guess: whether flows, potentials and an order of the nodes show themselves to be the solution. Only what is shown is
// proved: a solution that does not pass costs time and nothing else.
ghost use Rattle.std.specs.Prelude.{◌≡◌, ◌≤◌, ◌<◌, length};
ghost use Rattle.network.specs.Net.{asks, at, net, stands};
ghost use Rattle.network.specs.Limits.{most_nodes};
ghost use Rattle.network.specs.WellFormed.{WellFormed};
ghost use Rattle.network.specs.Nodes.{potentials, orders, size};
ghost use Rattle.circulation.specs.inside.Slackness.{Small};
ghost use Rattle.circulation.specs.inside.Optimal.{Support, Supports};
ghost use Rattle.leftmost.specs.inside.Shown.{Shown};
ghost use Rattle.leftmost.specs.inside.Optimal.{AllFit, AllSupported, Fits, FitsAt, Level, Passes};

use circulation::inside::{
    asks_at, at_head, at_tail, count_deficits, count_of, get, low_start, stands_at,
};
use circulation::limits::{FLOW_LEAST, FLOW_MOST};
use network::inside::part_of;
use network::layout::{HEAD, HIGH, LOW, TAIL};
use network::nodes::{DEFICIT, DEFICIT_ZERO, ORDER, PARENT};

// The parent of a node is an end of an arc: so many to an arc.
const ARC_ENDS: usize = 2;

// Whether the flows fit the potentials and balance, and every node but ground is supported. The deficits of the nodes are counted anew.
pub fn optimal(arcs: &[u32], flows: &[u32], nodes: &mut [u32]) -> bool
    requires { WellFormed (net arcs.now (length flows.now)) (size nodes.old) }
    ensures { Shown (Passes (net arcs.now (length flows.now)) (size nodes.old)
        flows.now nodes.new) result }
{
    if !low_start(nodes, count_of(nodes))
        || !all_fit(arcs, flows, nodes)
        || !all_supported(arcs, flows, nodes)
    {
        return false;
    }
    count_deficits(arcs, flows, nodes);
    level(nodes)
}

// Whether every flow fits the potentials.
fn all_fit(arcs: &[u32], flows: &[u32], nodes: &[u32]) -> bool
    requires well_formed { WellFormed (net arcs.now (length flows.now)) (size nodes.now) }
    requires small { Small (at (potentials nodes.now)) }
    ensures { Shown (AllFit (net arcs.now (length flows.now)) (at (potentials nodes.now))
        (at flows.now)) result }
{
    (0..flows.len()).all(|i| fits_at(arcs, flows, nodes, i))
}

// Whether the flow on arc i fits the potentials.
fn fits_at(arcs: &[u32], flows: &[u32], nodes: &[u32], i: usize) -> bool
    requires well_formed { WellFormed (net arcs.now (length flows.now)) (size nodes.now) }
    requires small { Small (at (potentials nodes.now)) }
    requires i_in_bounds { i < length flows.now }
    ensures { Shown (FitsAt (net arcs.now (length flows.now)) (at (potentials nodes.now))
        (at flows.now) i) result }
{
    let stands = stands_at(arcs, nodes, i, flows.len());
    let asks = asks_at(arcs, nodes, i, flows.len());
    fit(
        stands,
        asks,
        flows[i] as usize,
        part_of(arcs, i, LOW),
        part_of(arcs, i, HIGH),
    )
}

// Whether a flow can be counted, is within its limits, and is at the limit of the side where the head stands.
fn fit(stands: usize, asks: usize, x: usize, low: usize, high: usize) -> bool
    ensures { Shown (Fits stands asks x low high) result }
{
    FLOW_LEAST <= x
        && x <= FLOW_MOST
        && low <= x
        && x <= high
        && (asks <= stands || x == low)
        && (stands <= asks || x == high)
}

// Whether every node but ground is supported.
fn all_supported(arcs: &[u32], flows: &[u32], nodes: &[u32]) -> bool
    requires well_formed { WellFormed (net arcs.now (length flows.now)) (size nodes.now) }
    requires small { Small (at (potentials nodes.now)) }
    ensures { Shown (AllSupported (net arcs.now (length flows.now)) (size nodes.now)
        (at (potentials nodes.now)) (at flows.now) (at (orders nodes.now))) result }
{
    let ground = count_of(nodes) - 1;
    // A for: no proof is found of all over a range, since what shows a node supported holds an arc.
    for v in 0..ground {
        if !supported(arcs, flows, nodes, v) {
            return false;
        }
    }
    true
}

// Whether the arc of its parent supports node v.
fn supported(arcs: &[u32], flows: &[u32], nodes: &[u32], v: usize) -> bool
    requires well_formed { WellFormed (net arcs.now (length flows.now)) (size nodes.now) }
    requires small { Small (at (potentials nodes.now)) }
    requires v_bound { v < size nodes.now }
    ensures { Shown (Support (net arcs.now (length flows.now)) (at (potentials nodes.now))
        (at flows.now) (at (orders nodes.now)) v) result }
{
    let i = get(nodes, v, PARENT) / ARC_ENDS;
    i < flows.len() && supports(arcs, flows, nodes, v, i)
}

// Whether arc i supports node v: it is on its kink, its other end is before v, and its flow is not at the limit.
fn supports(arcs: &[u32], flows: &[u32], nodes: &[u32], v: usize, i: usize) -> bool
    requires well_formed { WellFormed (net arcs.now (length flows.now)) (size nodes.now) }
    requires small { Small (at (potentials nodes.now)) }
    requires v_bound { (v < size nodes.now) × (i < length flows.now) }
    ensures { Shown (Supports (net arcs.now (length flows.now)) (at (potentials nodes.now))
        (at flows.now) (at (orders nodes.now)) v i) result }
{
    if asks_at(arcs, nodes, i, flows.len()) != stands_at(arcs, nodes, i, flows.len()) {
        return false;
    }
    let x = flows[i] as usize;
    let place = get(nodes, v, ORDER);
    if part_of(arcs, i, TAIL) == v {
        return at_head(arcs, nodes, i, ORDER, flows.len()) < place && x < part_of(arcs, i, HIGH);
    }
    part_of(arcs, i, HEAD) == v
        && at_tail(arcs, nodes, i, ORDER, flows.len()) < place
        && part_of(arcs, i, LOW) < x
}

// Whether no node has a deficit or an excess.
fn level(nodes: &[u32]) -> bool
    requires { size nodes.now ≤ most_nodes }
    ensures { Shown (Level nodes.now) result }
{
    (0..count_of(nodes)).all(|v| get(nodes, v, DEFICIT) == DEFICIT_ZERO)
}
