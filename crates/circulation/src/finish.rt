// What the call leaves in the nodes: potentials relative to ground's, and 0 in their other numbers.
ghost use Rattle.std.specs.Prelude.{◌≡◌, ◌≤◌};
ghost use Rattle.circulation.specs.inside.Finish.{Grounded, Settled, Zeroed};
ghost use Rattle.network.specs.Nodes.{node_stride, potentials, size};
ghost use Rattle.network.specs.Limits.{most_nodes};

use crate::nodes::{count_of, fill, get, put};
use network::nodes::{NODE_STRIDE, POTENTIAL, POTENTIAL_ZERO};

// Potentials relative to ground's, and every other number 0.
pub fn finish(nodes: &mut [u32])
    requires { Grounded nodes.old }
    ensures settled { Settled nodes.old nodes.new }
    ensures zeroed { Zeroed node_stride nodes.new }
{
    settle(nodes);
    clear_others(nodes);
}

// Potentials relative to ground's, with POTENTIAL_ZERO added.
fn settle(nodes: &mut [u32])
    requires { Grounded nodes.old }
    ensures { Settled nodes.old nodes.new }
{
    let n = count_of(nodes);
    let ground = get(nodes, n - 1, POTENTIAL);
    for v in 0..n {
        let p = get(nodes, v, POTENTIAL);
        put(nodes, v, POTENTIAL, p + POTENTIAL_ZERO - ground);
    }
}

// The other numbers of every node are 0.
fn clear_others(nodes: &mut [u32])
    requires { size nodes.old ≤ most_nodes }
    ensures zeroed { Zeroed node_stride nodes.new }
    ensures nodes_unchanged { potentials nodes.new ≡ potentials nodes.old }
{
    for k in 1..NODE_STRIDE {
        fill(nodes, k, 0);
    }
}
