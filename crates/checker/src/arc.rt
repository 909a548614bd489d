// One packed arc: its tests, and what it adds to the bound.
ghost use Rattle.std.specs.Prelude.{◌≡◌, ◌≤◌, ◌<◌, length, get_or, pos, nat_abs, ◌*ℤ◌};
ghost use Rattle.leb128.specs.Words.{u32_most};
ghost use Rattle.network.specs.Network.{integers, legal, «at_least», «at_most»};
ghost use Rattle.network.specs.Flows.{allowed};
ghost use Rattle.network.specs.Packed.{arc_at, flow_at, «low_of», high_of};
ghost use Rattle.checker.specs.inside.Sizes.{term_size};
ghost use Rattle.checker.specs.inside.Table.{HasArc};

use network::inside::part_of;
use network::layout::{FLOW_ZERO, HEAD, HIGH, HIGH_NONE, KINK, KINK_ZERO, LOW, LOW_NONE, TAIL};
use packed::place;

// Arc i is on no forbidden side of its kink.
pub fn legal_at(arcs: &[u32], places: &[u16], i: usize) -> bool
    requires { HasArc arcs.now i }
    ensures { result ≡ legal (integers places.now) (arc_at arcs.now i) }
{
    let head = place(places, part_of(arcs, i, HEAD)) + KINK_ZERO;
    let tail = place(places, part_of(arcs, i, TAIL)) + part_of(arcs, i, KINK);
    if tail < head {
        return part_of(arcs, i, HIGH) != HIGH_NONE as usize;
    }
    if head < tail {
        return part_of(arcs, i, LOW) != LOW_NONE as usize;
    }
    true
}

// The flow on arc i is within its limits.
pub fn allowed_at(arcs: &[u32], list: &[i32], i: usize) -> bool
    requires has_arc { HasArc arcs.now i }
    requires i_in_bounds { i < length list.now }
    ensures { result ≡ allowed (flow_at arcs.now list.now i) }
{
    if !at_least(list[i], part_of(arcs, i, LOW)) {
        return false;
    }
    at_most(list[i], part_of(arcs, i, HIGH))
}

// An amount is not below a stored low limit.
fn at_least(amount: i32, low: usize) -> bool
    requires { low ≤ u32_most }
    ensures { result ≡ at_least amount (low_of low) }
{
    if low == LOW_NONE as usize {
        return true;
    }
    low as i64 - i64::from(FLOW_ZERO) <= i64::from(amount)
}

// An amount is not above a stored high limit.
fn at_most(amount: i32, high: usize) -> bool
    requires { high ≤ u32_most }
    ensures { result ≡ at_most amount (high_of high) }
{
    if high == HIGH_NONE as usize {
        return true;
    }
    i64::from(amount) <= high as i64 - i64::from(FLOW_ZERO)
}

// The flow on arc i times its kink: the bound is 0 less these.
pub fn term(arcs: &[u32], list: &[i32], i: usize) -> i64
    requires has_arc { HasArc arcs.now i }
    requires i_in_bounds { i < length list.now }
    ensures { (result ≡ get_or list.now i (pos 0) *ℤ (arc_at arcs.now i).kink) × (nat_abs result ≤ term_size) }
{
    let kink = part_of(arcs, i, KINK) as i64 - KINK_ZERO as i64;
    i64::from(list[i]) * kink
}
