// Whether packed arcs are what a solver takes.
ghost use Rattle.std.specs.Prelude.{◌*◌, ◌≤◌, ◌<◌, length};
ghost use Rattle.network.specs.Tested.{Tested};
ghost use Rattle.network.specs.Packed.{stride};
ghost use Rattle.network.specs.Net.{net};
ghost use Rattle.network.specs.Limits.{most_arcs};
ghost use Rattle.network.specs.WellFormed.{ArcIn, ArcsIn};

use crate::inside::part_of;
use crate::layout::{HEAD, KINK, TAIL};
use crate::limits::MAX_KINK;

// Whether arc i has nodes as its ends and a kink that is not too large.
fn arc_ok(arcs: &[u32], count: usize, i: usize, nodes: usize) -> bool
    requires { (stride * count ≤ length arcs.now) × (i < count) × (count ≤ most_arcs) }
    ensures { Tested (ArcIn (net arcs.now count) nodes i) result }
{
    let kink = part_of(arcs, i, KINK);
    part_of(arcs, i, TAIL) < nodes && part_of(arcs, i, HEAD) < nodes && 0 < kink && kink <= MAX_KINK
}

// Whether every arc is such.
pub fn arcs_ok(arcs: &[u32], count: usize, nodes: usize) -> bool
    requires { (stride * count ≤ length arcs.now) × (count ≤ most_arcs) }
    ensures { Tested (ArcsIn (net arcs.now count) nodes) result }
{
    (0..count).all(|i| arc_ok(arcs, count, i, nodes))
}
