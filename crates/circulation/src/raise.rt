// Raising the reached nodes.
ghost use Rattle.std.specs.Prelude.{ℕ, ◌+◌, ◌≤◌, ◌<◌};
ghost use Rattle.circulation.specs.inside.Stores.{Apart, Stored};
ghost use Rattle.circulation.specs.inside.Search.{Moved, lift};
ghost use Rattle.circulation.specs.inside.Slackness.{Small};
ghost use Rattle.network.specs.Net.{at};
ghost use Rattle.network.specs.Limits.{most_nodes};
ghost use Rattle.circulation.specs.Limits.{potential_limit};
ghost use Rattle.network.specs.Nodes.{potentials, orders, size};

use crate::nodes::{count_of, get, put};
use network::nodes::{ORDER, POTENTIAL};

// Raises node v by d if it is reached.
fn raise(nodes: &mut [u32], v: usize, d: usize)
    requires v_bound { (v < size nodes.old) × (v < most_nodes) }
    requires d_bound { 0 < at (orders nodes.old) v → at (potentials nodes.old) v + d ≤ potential_limit }
    ensures { Stored 0 v (lift (at (orders nodes.old) v) (at (potentials nodes.old) v) d)
        nodes.old nodes.new }
{
    if get(nodes, v, ORDER) == 0 {
        return;
    }
    let p = get(nodes, v, POTENTIAL);
    put(nodes, v, POTENTIAL, p + d);
}

// Raises the reached nodes by d.
fn raise_all(nodes: &mut [u32], d: usize)
    requires nodes_bound { size nodes.old ≤ most_nodes }
    requires small { Small (at (potentials nodes.old)) }
    requires by_index { (v : ℕ) → v < size nodes.old → 0 < at (orders nodes.old) v → at (potentials nodes.old) v + d ≤ potential_limit }
    ensures moved { Moved (size nodes.old) d (at (orders nodes.old)) (at (potentials nodes.old))
        (at (potentials nodes.new)) }
    ensures apart { Apart 0 nodes.old nodes.new }
{
    for v in 0..count_of(nodes) {
        raise(nodes, v, d);
    }
}

// The same; a step of nothing, the commonest, looks at no node.
pub fn raise_reached(nodes: &mut [u32], d: usize)
    requires nodes_bound { size nodes.old ≤ most_nodes }
    requires small { Small (at (potentials nodes.old)) }
    requires by_index { (v : ℕ) → v < size nodes.old → 0 < at (orders nodes.old) v → at (potentials nodes.old) v + d ≤ potential_limit }
    ensures moved { Moved (size nodes.old) d (at (orders nodes.old)) (at (potentials nodes.old))
        (at (potentials nodes.new)) }
    ensures apart { Apart 0 nodes.old nodes.new }
{
    if d == 0 {
        return;
    }
    raise_all(nodes, d);
}
