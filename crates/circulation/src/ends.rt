// The numbers of the nodes at the ends of an arc, and where the arc stands by them.
ghost use Rattle.std.specs.Prelude.{◌≡◌, ◌<◌};
ghost use Rattle.network.specs.Net.{asks, at, head, net, stands, tail};
ghost use Rattle.network.specs.WellFormed.{WellFormed};
ghost use Rattle.circulation.specs.inside.Slackness.{Small};
ghost use Rattle.network.specs.Nodes.{column, node_stride, potentials, size};

use crate::nodes::get;
use network::inside::part_of;
use network::layout::{HEAD, KINK, KINK_ZERO, TAIL};
use network::nodes::POTENTIAL;

// Number k of the head of arc i of m. It and `at_tail` are two: one function would have the end as its sixth parameter.
pub fn at_head(arcs: &[u32], nodes: &[u32], i: usize, k: usize, m: usize) -> usize
    requires well_formed { WellFormed (net arcs.now m) (size nodes.now) }
    requires i_lt_m { (i < m) × (k < node_stride) }
    ensures { result ≡ at (column k nodes.now) (head (net arcs.now m) i) }
{
    get(nodes, part_of(arcs, i, HEAD), k)
}

// Number k of the tail of arc i of m.
pub fn at_tail(arcs: &[u32], nodes: &[u32], i: usize, k: usize, m: usize) -> usize
    requires well_formed { WellFormed (net arcs.now m) (size nodes.now) }
    requires i_lt_m { (i < m) × (k < node_stride) }
    ensures { result ≡ at (column k nodes.now) (tail (net arcs.now m) i) }
{
    get(nodes, part_of(arcs, i, TAIL), k)
}

// Where the head of arc i of m stands, with KINK_ZERO added.
pub fn stands_at(arcs: &[u32], nodes: &[u32], i: usize, m: usize) -> usize
    requires well_formed { WellFormed (net arcs.now m) (size nodes.now) }
    requires small { Small (at (potentials nodes.now)) }
    requires i_lt_m { i < m }
    ensures { result ≡ stands (net arcs.now m) (at (potentials nodes.now)) i }
{
    at_head(arcs, nodes, i, POTENTIAL, m) + KINK_ZERO
}

// Where the kink of arc i of m asks the head to stand, with KINK_ZERO added.
pub fn asks_at(arcs: &[u32], nodes: &[u32], i: usize, m: usize) -> usize
    requires well_formed { WellFormed (net arcs.now m) (size nodes.now) }
    requires small { Small (at (potentials nodes.now)) }
    requires i_lt_m { i < m }
    ensures { result ≡ asks (net arcs.now m) (at (potentials nodes.now)) i }
{
    at_tail(arcs, nodes, i, POTENTIAL, m) + part_of(arcs, i, KINK)
}
