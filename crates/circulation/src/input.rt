// What the call takes.
ghost use Rattle.std.specs.Prelude.{◌≡◌, ◌+◌, ◌*◌, ◌≤◌, ◌<◌, length};
ghost use Rattle.network.specs.WellFormed.{WellFormed};
ghost use Rattle.circulation.specs.Input.{ArcsTaken, Feasible, First, HangsBy, HighIn, Limited, LimitsIn, LowIn, Rooted, Valid};
ghost use Rattle.circulation.specs.inside.Steps.{Hanger};
ghost use Rattle.circulation.specs.inside.Slackness.{Met, Small};
ghost use Rattle.network.specs.Tested.{Tested};
ghost use Rattle.network.specs.Net.{at, net};
ghost use Rattle.network.specs.Limits.{most_arcs, most_nodes};
ghost use Rattle.network.specs.Nodes.{potentials, size};
ghost use Rattle.network.specs.Packed.{stride};

use crate::limits::{HIGH_MOST, LOW_LEAST, NO_FLOW, UNLIMITED};
use crate::nodes::{count_of, get};
use crate::start::first_flow;
use network::inside::part_of;
use network::layout::{HEAD, HIGH, LOW, TAIL};
use network::nodes::POTENTIAL;
use network::well_formed;

// Whether the whole input is one that the method takes.
pub fn valid(arcs: &[u32], nodes: &[u32], m: usize) -> bool
    ensures { Tested (Valid (net arcs.now m) (size nodes.now) (potentials nodes.now)) result }
{
    let n = count_of(nodes);
    arcs_taken(arcs, m, n) && low_start(nodes, n) && meets(arcs, nodes, m)
}

// Whether m arcs between n nodes are ones that the method takes.
pub fn arcs_taken(arcs: &[u32], m: usize, n: usize) -> bool
    ensures { Tested (ArcsTaken (net arcs.now m) n) result }
{
    well_formed(arcs, m, n) && limited(arcs, m) && rooted(arcs, n, m)
}

// Whether the limits of every arc are small.
fn limited(arcs: &[u32], m: usize) -> bool
    requires { (stride * m ≤ length arcs.now) × (m ≤ most_arcs) }
    ensures { Tested (Limited (net arcs.now m)) result }
{
    (0..m).all(|i| limits_ok(arcs, i, m))
}

// Whether the limits of arc i are small.
fn limits_ok(arcs: &[u32], i: usize, m: usize) -> bool
    requires { (stride * i + stride ≤ length arcs.now) × (i < most_arcs) }
    ensures { Tested (LimitsIn (net arcs.now m) i) result }
{
    low_ok(part_of(arcs, i, LOW)) && high_ok(part_of(arcs, i, HIGH))
}

// Whether l is the low limit of an arc.
fn low_ok(l: usize) -> bool
    ensures { Tested (LowIn l) result }
{
    l <= NO_FLOW && (l == 0 || LOW_LEAST <= l)
}

// Whether h is the high limit of an arc.
fn high_ok(h: usize) -> bool
    ensures { Tested (HighIn h) result }
{
    NO_FLOW <= h && (h == UNLIMITED || h <= HIGH_MOST)
}

// Whether potentials are small enough to start from.
pub fn low_start(nodes: &[u32], n: usize) -> bool
    requires { (n ≡ size nodes.now) × (n ≤ most_nodes) }
    ensures { Tested (First (at (potentials nodes.now))) result }
{
    (0..n).all(|v| get(nodes, v, POTENTIAL) <= NO_FLOW)
}

// Whether no arc is on a forbidden side.
fn meets(arcs: &[u32], nodes: &[u32], m: usize) -> bool
    requires well_formed { WellFormed (net arcs.now m) (size nodes.now) }
    requires small { Small (at (potentials nodes.now)) }
    requires limited { Limited (net arcs.now m) }
    ensures { Tested (Feasible (net arcs.now m) (at (potentials nodes.now))) result }
{
    (0..m).all(|i| meets_at(arcs, nodes, i, m))
}

// Whether arc i is on no forbidden side.
fn meets_at(arcs: &[u32], nodes: &[u32], i: usize, m: usize) -> bool
    requires well_formed { WellFormed (net arcs.now m) (size nodes.now) }
    requires small { Small (at (potentials nodes.now)) }
    requires limited { LimitsIn (net arcs.now m) i }
    requires i_lt_m { i < m }
    ensures { Tested (Met (net arcs.now m) (at (potentials nodes.now)) i) result }
{
    let y = first_flow(arcs, nodes, i, m);
    y != 0 && y != UNLIMITED
}

// Whether every node but the ground hangs.
fn rooted(arcs: &[u32], n: usize, m: usize) -> bool
    requires { (stride * m ≤ length arcs.now) × (m ≤ most_arcs) × (0 < n) × (n ≤ most_nodes) }
    ensures { Tested (Rooted (net arcs.now m) n) result }
{
    let g = n - 1;
    let mut last = 0;
    for v in 0..g {
        let Some(i) = any_hanger(arcs, v, g, last, m) else {
            return false;
        };
        last = i;
    }
    true
}

// An arc of m by which v hangs, looked for from arc first on and then from the start.
fn any_hanger(arcs: &[u32], v: usize, g: usize, first: usize, m: usize) -> Option<usize>
    requires { (stride * m ≤ length arcs.now) × (m ≤ most_arcs) }
    ensures { Hanger arcs.now v g 0 m result }
{
    hanger(arcs, v, g, first, m).or_else(|| hanger(arcs, v, g, 0, m))
}

// The first arc of m by which v hangs, from arc first on.
fn hanger(arcs: &[u32], v: usize, g: usize, first: usize, m: usize) -> Option<usize>
    requires { (stride * m ≤ length arcs.now) × (m ≤ most_arcs) }
    ensures { Hanger arcs.now v g first m result }
{
    (first..m).find(|&i| hangs(arcs, i, v, g))
}

// Whether arc i is unlimited, and goes from v to the ground g or to a node before v.
fn hangs(arcs: &[u32], i: usize, v: usize, g: usize) -> bool
    requires { (stride * i + stride ≤ length arcs.now) × (i < most_arcs) }
    ensures { Tested (HangsBy arcs.now g v i) result }
{
    let h = part_of(arcs, i, HEAD);
    part_of(arcs, i, TAIL) == v && part_of(arcs, i, HIGH) == UNLIMITED && (h == g || h < v)
}
