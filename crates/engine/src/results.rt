// From what the solvers leave to places and list.
ghost use Rattle.std.specs.Prelude.{◌≡◌, ◌*◌, ◌≤◌, ◌<◌, length};
ghost use Rattle.std.proofs.lemmas.List.Edits.{sets};
ghost use Rattle.network.specs.Sums.{upto};
ghost use Rattle.network.specs.Packed.{high_none};
ghost use Rattle.engine.specs.inside.Results.{«place_at», «number_of», «number_at», Places, Flows};

use network::layout::FLOW_ZERO;
use network::nodes::{NODE_STRIDE, POTENTIAL_ZERO};

// The flow 0 as it is stored.
const NO_FLOW: i32 = FLOW_ZERO as i32;

// The potential of ground as it is stored.
const GROUND: u32 = POTENTIAL_ZERO as u32;

// The coordinate of node v, from its potential.
fn coordinate(nodes: &[u32], count: usize, v: usize) -> u16
    requires places { Places nodes.now count }
    requires v_lt_count { v < count }
    ensures { result ≡ place_at nodes.now v }
{
    (nodes[NODE_STRIDE * v] - GROUND) as u16
}

// The coordinates of all nodes, in front of the places.
pub fn put_places(nodes: &[u32], count: usize, places: &mut [u16])
    requires places { Places nodes.now count }
    requires count_in_bounds { count ≤ length places.old }
    ensures { places.new ≡ sets places.old 0 (upto count (place_at nodes.now)) }
{
    for v in 0..count {
        places[v] = coordinate(nodes, count, v);
    }
}

// A stored flow, read back.
fn signed(x: u32) -> i32
    requires { x ≤ high_none }
    ensures { result ≡ number_of x }
{
    (x as i32) - NO_FLOW
}

// The flows of all arcs, in front of the list.
pub fn put_list(flows: &[u32], list: &mut [i32])
    requires flows { Flows flows.now }
    requires flows_in_bounds { length flows.now ≤ length list.old }
    ensures { list.new ≡ sets list.old 0 (upto (length flows.now) (number_at flows.now)) }
{
    for i in 0..flows.len() {
        list[i] = signed(flows[i]);
    }
}
