// The circulation from the least solution of the hard constraints.
ghost use Rattle.std.specs.Prelude.{◌≡◌, ◌*◌, ◌≤◌, length};
ghost use Rattle.network.specs.Net.{meant, net};
ghost use Rattle.network.specs.Limits.{most_nodes};
ghost use Rattle.network.specs.Nodes.{node_stride, size};
ghost use Rattle.leftmost.specs.Solutions.{Finding, Means, SomeFeasible, Taken};
ghost use Rattle.leftmost.specs.inside.Potentials.{potentials_to};

use difference::least;
use network::clear;
use network::nodes::NODE_STRIDE;

// Solves a network that has feasible potentials, whatever the slices hold.
pub fn circulate(arcs: &[u32], flows: &mut [u32], nodes: &mut [u32], room: &mut [u32])
    requires taken { Taken (net arcs.now (length flows.old)) (size nodes.old) (length room.old) }
    requires some_feasible { SomeFeasible (meant (net arcs.now (length flows.old)) (size nodes.old)) }
    ensures { Means (net arcs.now (length flows.old)) flows.old nodes.old
        room.old flows.new nodes.new room.new Finding.solved }
{
    let count = nodes.len() / NODE_STRIDE;
    // Neither fails: there are feasible potentials, and the nodes have such.
    let _ = least(arcs, flows.len(), count, room);
    set_potentials(&room[..count], nodes);
    let _ = circulation::solve(arcs, flows, nodes);
    clear(room);
}

// The potentials to start from, in the nodes.
pub fn set_potentials(values: &[u32], nodes: &mut [u32])
    requires { (node_stride * length values.now ≤ length nodes.old) × (length values.now ≤ most_nodes) }
    ensures { nodes.new ≡ potentials_to (length values.now) values.now nodes.old }
{
    for (v, value) in values.iter().enumerate() {
        nodes[NODE_STRIDE * v] = *value;
    }
}
