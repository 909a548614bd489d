// How far the reached nodes may rise until an arc is on its kink, and the arc of the least such step.
ghost use Rattle.std.specs.Prelude.{◌<◌, length, Some, IfSome};
ghost use Rattle.circulation.specs.inside.Steps.{CrossingAt, NearestBy};
ghost use Rattle.circulation.specs.inside.Search.{Distance, StepAt};
ghost use Rattle.circulation.specs.inside.Slackness.{Ready};
ghost use Rattle.network.specs.Net.{at, net};
ghost use Rattle.network.specs.Nodes.{potentials, orders};

use crate::ends::{asks_at, at_head, at_tail, stands_at};
use network::inside::part_of;
use network::layout::{HIGH, LOW};
use network::nodes::ORDER;

// How far from is from to, if less is less than more and from is not past to.
fn distance(from: usize, to: usize, less: usize, more: usize) -> Option<usize>
    ensures { Distance from to less more result }
{
    if less < more {
        to.checked_sub(from)
    } else {
        None
    }
}

// How far the reached nodes may rise until arc i is on its kink; none if it does not cross or stays out.
pub fn step_at(arcs: &[u32], flows: &[u32], nodes: &[u32], i: usize) -> Option<usize>
    requires ready { Ready (net arcs.now (length flows.now)) (potentials nodes.now) flows.now (orders nodes.now) }
    requires i_in_bounds { i < length flows.now }
    ensures { StepAt (net arcs.now (length flows.now)) (at (potentials nodes.now))
        (at flows.now) (at (orders nodes.now)) i result }
{
    let m = flows.len();
    let stands = stands_at(arcs, nodes, i, m);
    let asks = asks_at(arcs, nodes, i, m);
    let x = flows[i] as usize;
    let head_reached = at_head(arcs, nodes, i, ORDER, m) > 0;
    let tail_reached = at_tail(arcs, nodes, i, ORDER, m) > 0;
    match (head_reached, tail_reached) {
        (true, false) => distance(stands, asks, x, part_of(arcs, i, HIGH)),
        (false, true) => distance(asks, stands, part_of(arcs, i, LOW), x),
        _ => None,
    }
}

// The first arc from start on whose step is 0.
fn on_kink(arcs: &[u32], flows: &[u32], nodes: &[u32], start: usize) -> Option<usize>
    requires { Ready (net arcs.now (length flows.now)) (potentials nodes.now) flows.now (orders nodes.now) }
    ensures { IfSome result (λ i. (i < length flows.now) × StepAt (net arcs.now (length flows.now))
        (at (potentials nodes.now)) (at flows.now) (at (orders nodes.now)) i (Some 0)) }
{
    (start..flows.len()).find(|&i| step_at(arcs, flows, nodes, i) == Some(0))
}

// The crossing arc of the least step, and that step; none is less than 0.
fn nearest(arcs: &[u32], flows: &[u32], nodes: &[u32]) -> (usize, usize)
    requires ready { Ready (net arcs.now (length flows.now)) (potentials nodes.now) flows.now (orders nodes.now) }
    requires crossing_at { CrossingAt (net arcs.now (length flows.now)) flows.now nodes.now }
    ensures { NearestBy (net arcs.now (length flows.now)) (length flows.now)
        (at (potentials nodes.now)) (at flows.now) (at (orders nodes.now)) result }
{
    // A for, and no chain: a step of 0 ends the scan.
    let mut best: Option<(usize, usize)> = None;
    for i in 0..flows.len() {
        if let Some(d) = step_at(arcs, flows, nodes, i) {
            if d == 0 {
                return (i, 0);
            }
            if best.is_none_or(|(_, least)| d < least) {
                best = Some((i, d));
            }
        }
    }
    best.unwrap()
}

// The crossing arc of the least step, and that step: an arc from start on that is on its kink, or one found by a scan.
pub fn choose(arcs: &[u32], flows: &[u32], nodes: &[u32], start: usize) -> (usize, usize)
    requires ready { Ready (net arcs.now (length flows.now)) (potentials nodes.now) flows.now (orders nodes.now) }
    requires crossing_at { CrossingAt (net arcs.now (length flows.now)) flows.now nodes.now }
    ensures { NearestBy (net arcs.now (length flows.now)) (length flows.now)
        (at (potentials nodes.now)) (at flows.now) (at (orders nodes.now)) result }
{
    match on_kink(arcs, flows, nodes, start) {
        Some(i) => (i, 0),
        None => nearest(arcs, flows, nodes),
    }
}
