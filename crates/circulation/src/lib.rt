// The primal-dual method: flows and potentials of a network that fit each other, least in cost and leftmost among the least.
// Numbers are stored with something added, so that all are natural; sums and tests are on 64 bits, the slices hold 32.
// Between `usize` and the stored types a number goes by `as`: there is no `From`, and `try_from` would test what is proved.
#![tactic(auto)]

mod augment;
mod ends;
mod finish;
mod input;
pub mod inside;
pub mod limits;
mod nodes;
mod raise;
mod search;
mod start;
mod step;

ghost use Rattle.std.specs.Prelude.{length};
ghost use Rattle.circulation.specs.inside.Finish.{Zeroed};
ghost use Rattle.circulation.specs.inside.Steps.{Ends};
ghost use Rattle.circulation.specs.Solutions.{finding, Means, Solution};
ghost use Rattle.circulation.specs.Input.{ArcsTaken, Valid};
ghost use Rattle.network.specs.Tested.{Tested};
ghost use Rattle.network.specs.Net.{at, net};
ghost use Rattle.network.specs.Nodes.{node_stride, potentials, size};

use crate::augment::augment;
use crate::finish::finish;
use crate::input::{arcs_taken, valid};
use crate::nodes::count_of;
use crate::search::{flood, search, source};
use crate::start::{count_deficits, saturate};
use network::nodes::NODE_STRIDE;

// The input is not taken.
#[derive(Clone, Copy)]
pub struct Malformed;

// Whether solve takes the first arcs, so many, between so many nodes, if the potentials to start from are feasible.
pub fn takes(arcs: &[u32], count: usize, nodes: usize) -> bool
    ensures { Tested (ArcsTaken (net arcs.now count) nodes) result }
{
    arcs_taken(arcs, count, nodes)
}

// Flows that balance, and the leftmost potentials of least cost, from the potentials in nodes; its other numbers are room to
// work in. At the end the potentials are relative to ground's, with 2^28 added, and the other numbers are 0. Which flows it leaves
// is open: any that are allowed, balanced and in complementary slackness with the potentials. Malformed leaves both slices as they
// were.
pub fn solve(arcs: &[u32], flows: &mut [u32], nodes: &mut [u32]) -> Result<(), Malformed>
    ensures { Means (net arcs.now (length flows.old)) flows.old nodes.old
        flows.new nodes.new (finding result) }
{
    if !valid(arcs, nodes, flows.len()) {
        return Err(Malformed);
    }
    let end = NODE_STRIDE * count_of(nodes);
    whole(arcs, flows, &mut nodes[0..end]);
    Ok(())
}

// Solves a valid network; nothing stands behind the last node.
fn whole(arcs: &[u32], flows: &mut [u32], nodes: &mut [u32])
    requires { Valid (net arcs.now (length flows.old)) (size nodes.old) (potentials nodes.old) }
    ensures solution { Solution (net arcs.now (length flows.old)) (size nodes.old) (at flows.new)
        (at (potentials nodes.new)) }
    ensures zeroed { Zeroed node_stride nodes.new }
{
    run(arcs, flows, nodes);
    flood(arcs, flows, nodes);
    finish(nodes);
}

// The three slices go on one by one: the contract of `solve` speaks of each.
// The method: searches and augments until no node has a deficit.
fn run(arcs: &[u32], flows: &mut [u32], nodes: &mut [u32])
    requires { Valid (net arcs.now (length flows.old)) (size nodes.old) (potentials nodes.old) }
    ensures { Ends (net arcs.now (length flows.old)) (size nodes.old) flows.new
        nodes.new }
{
    saturate(arcs, flows, nodes);
    count_deficits(arcs, flows, nodes);
    while let Some(s) = source(nodes) {
        let t = search(arcs, flows, nodes, s);
        augment(arcs, flows, nodes, s, t);
    }
}
