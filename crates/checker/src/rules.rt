// The loops over the arcs: legal places, limits of the flows, balance, bound.
ghost use Rattle.std.specs.Prelude.{◌≡◌, ◌+◌, ◌≤◌, ◌<◌, length, get_or, pos, nat_abs};
ghost use Rattle.sheet.specs.Limits.{max_nodes};
ghost use Rattle.network.specs.Integers.{eqZ};
ghost use Rattle.network.specs.Sums.{all, sum, below, upto};
ghost use Rattle.network.specs.Network.{integers, legal};
ghost use Rattle.network.specs.Flows.{allowed, balanced, bound_term};
ghost use Rattle.network.specs.Packed.{arcs_to, flow_at};
ghost use Rattle.checker.specs.inside.Sizes.{amount_size, balance_size, bound_size};
ghost use Rattle.checker.specs.inside.Table.{HasArc, Table};
ghost use Rattle.checker.specs.inside.Balances.{Within, Shifted, Brought, Balanced};

use crate::arc::{allowed_at, legal_at, term};
use network::inside::part_of;
use network::layout::{HEAD, TAIL};
use sheet::limits::MAX_NODES;

// Every arc is on no forbidden side of its kink.
pub fn all_legal(arcs: &[u32], places: &[u16], n: usize) -> bool
    requires { Table arcs.now n }
    ensures { result ≡ all (legal (integers places.now)) (arcs_to arcs.now n) }
{
    (0..n).all(|i| legal_at(arcs, places, i))
}

// Every flow is within its limits.
pub fn all_allowed(arcs: &[u32], list: &[i32], n: usize) -> bool
    requires table { Table arcs.now n }
    requires n_in_bounds { n ≤ length list.now }
    ensures { result ≡ all allowed (upto n (flow_at arcs.now list.now)) }
{
    (0..n).all(|i| allowed_at(arcs, list, i))
}

// Adds x at node v; ground is past the slice.
fn shift(balance: &mut [i64], v: usize, x: i64)
    requires within { Within balance.old (balance_size + amount_size) }
    requires x_bound { nat_abs x ≤ amount_size }
    ensures { Shifted balance.old v x balance.new }
{
    if v < balance.len() {
        balance[v] += x;
    }
}

// Adds what the flow on arc i brings to its ends.
fn bring(arcs: &[u32], list: &[i32], i: usize, balance: &mut [i64])
    requires has_arc { HasArc arcs.now i }
    requires i_in_bounds { i < length list.now }
    requires within { Within balance.old balance_size }
    ensures { Brought (flow_at arcs.now list.now i) balance.old balance.new }
{
    shift(balance, part_of(arcs, i, HEAD), i64::from(list[i]));
    shift(balance, part_of(arcs, i, TAIL), -i64::from(list[i]));
}

// Adds what the first n flows bring to each node.
fn balances(arcs: &[u32], list: &[i32], n: usize, balance: &mut [i64])
    requires table { Table arcs.now n }
    requires n_in_bounds { n ≤ length list.now }
    requires within { Within balance.old 0 }
    ensures { Balanced arcs.now list.now n balance.old balance.new }
{
    for i in 0..n {
        bring(arcs, list, i, balance);
    }
}

// The first n elements are 0.
fn zeros(balance: &[i64], n: usize) -> bool
    requires { n ≤ length balance.now }
    ensures { result ≡ below n (λ v. eqZ (get_or balance.now v (pos 0)) (pos 0)) }
{
    (0..n).all(|v| balance[v] == 0)
}

// Every node is in balance.
pub fn all_balanced(arcs: &[u32], list: &[i32], nodes: usize, n: usize) -> bool
    requires table { Table arcs.now n }
    requires n_in_bounds { (n ≤ length list.now) × (nodes ≤ max_nodes) }
    ensures { result ≡ balanced nodes (upto n (flow_at arcs.now list.now)) }
{
    let mut balance = [0i64; MAX_NODES as usize];
    balances(arcs, list, n, &mut balance);
    zeros(&balance, nodes)
}

// The bound (floor): no drawing has a smaller total, where the list meets the rules.
pub fn bound(arcs: &[u32], list: &[i32], n: usize) -> i64
    requires table { Table arcs.now n }
    requires n_in_bounds { n ≤ length list.now }
    ensures { (result ≡ sum bound_term (upto n (flow_at arcs.now list.now))) × (nat_abs result ≤ bound_size) }
{
    let mut result: i64 = 0;
    for i in 0..n {
        result -= term(arcs, list, i);
    }
    result
}
