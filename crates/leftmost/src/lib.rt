// The leftmost least potentials of any network of packed arcs, and flows that show them to be least: the least solution of the
// hard constraints, then a guess that shows itself to be right, else the circulation from the start.
// Between `usize` and the stored types a number goes by `as`: there is no `From`, and `try_from` would test what is proved.
#![tactic(auto)]

mod attempt;
mod optimal;
mod start;

ghost use Rattle.std.specs.Prelude.{length};
ghost use Rattle.network.specs.Net.{meant, net};
ghost use Rattle.network.specs.Nodes.{size};
ghost use Rattle.leftmost.specs.Solutions.{finding, Finding, Means, SomeFeasible, Taken};

use crate::attempt::attempt;
use crate::start::{circulate, set_potentials};
use circulation::takes;
use difference::least;
use network::nodes::NODE_STRIDE;
use network::{Unsolved, clear};

// Flows that balance, and the leftmost potentials of least cost, of as many arcs as there are flows. Each node has NODE_STRIDE
// numbers, its potential first, and ground is the last node. room is to work in: it has a number or more for each node, and
// solving is fast if it has 8 + 4 · nodes + 2 · arcs. What these slices hold at first is not looked at.
// A solution is left with potentials relative to ground's, with 2^28 added, and 0 in the other numbers of the nodes and in room; which
// flows it has is open. NoSolution is an answer and no refusal: no potentials that are not negative are feasible; room is 0,
// flows and nodes are as they were. Malformed leaves all slices as they were.
pub fn solve(
    arcs: &[u32],
    flows: &mut [u32],
    nodes: &mut [u32],
    room: &mut [u32],
) -> Result<(), Unsolved>
    ensures { Means (net arcs.now (length flows.old)) flows.old nodes.old
        room.old flows.new nodes.new room.new (finding result) }
{
    let count = nodes.len() / NODE_STRIDE;
    if count > room.len() || !takes(arcs, flows.len(), count) {
        return Err(Unsolved::Malformed);
    }
    if least(arcs, flows.len(), count, room).is_err() {
        clear(room);
        return Err(Unsolved::NoSolution);
    }
    set_potentials(&room[..count], nodes);
    solve_feasible(arcs, flows, nodes, room);
    Ok(())
}

// Solves a network that has feasible potentials: by a guess from those in the nodes, or by the circulation from the start.
fn solve_feasible(arcs: &[u32], flows: &mut [u32], nodes: &mut [u32], room: &mut [u32])
    requires taken { Taken (net arcs.now (length flows.old)) (size nodes.old) (length room.old) }
    requires some_feasible { SomeFeasible (meant (net arcs.now (length flows.old)) (size nodes.old)) }
    ensures { Means (net arcs.now (length flows.old)) flows.old nodes.old
        room.old flows.new nodes.new room.new Finding.solved }
{
    let end = NODE_STRIDE * (nodes.len() / NODE_STRIDE);
    if !attempt(arcs, flows, &mut nodes[0..end], room) {
        circulate(arcs, flows, nodes, room);
    }
}
