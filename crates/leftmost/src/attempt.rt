// A guess, taken if it shows itself to be the solution.
ghost use Rattle.std.specs.Prelude.{length};
ghost use Rattle.network.specs.Net.{net};
ghost use Rattle.network.specs.Nodes.{size};
ghost use Rattle.circulation.specs.Input.{ArcsTaken};
ghost use Rattle.leftmost.specs.inside.Shown.{Shown};
ghost use Rattle.leftmost.specs.inside.Optimal.{Left};

use crate::optimal::optimal;
use circulation::inside::finish;
use guess::inside::guess;
use network::clear;

// Whether a guess from the potentials in nodes is the solution; then it is left, with potentials relative to ground's, and 0 in
// the other numbers of the nodes and in room. Nothing stands behind the last node.
pub fn attempt(arcs: &[u32], flows: &mut [u32], nodes: &mut [u32], room: &mut [u32]) -> bool
    requires { ArcsTaken (net arcs.now (length flows.old)) (size nodes.old) }
    ensures { Shown (Left (net arcs.now (length flows.old)) (size nodes.old) flows.new
        nodes.new room.new) result }
{
    guess(arcs, flows, nodes, room);
    if !optimal(arcs, flows, nodes) {
        return false;
    }
    finish(nodes);
    clear(room);
    true
}
