// The numbers of an arc by its kind, and writing an arc into a slice.
ghost use Rattle.std.specs.Prelude.{◌≡◌, [], ◌∷◌, ◌+◌, ◌*◌, ◌≤◌, ◌<◌, length};
ghost use Rattle.leb128.specs.inside.Storing.{Puts};
ghost use Rattle.sheet.specs.Limits.{max_nodes};
ghost use Rattle.network.specs.Packed.{stride, packs, kink_zero, flow_zero, high_none};
ghost use Rattle.drawing.specs.Arcs.{maximum_arc};
ghost use Rattle.arcs.specs.inside.Pieces.{arc_numbers};
ghost use Rattle.arcs.specs.inside.Traces.{strength_arc};

use crate::PackedArc;
use network::layout::{
    FLOW_ZERO, HEAD, HIGH, HIGH_NONE, KINK, KINK_ZERO, LOW, LOW_NONE, STRIDE, TAIL,
};
use sheet::limits::MAX_WEIGHT;

// Writes an arc at an index; answers the index behind it.
pub fn put_arc(arcs: &mut [u32], at: usize, arc: PackedArc) -> usize
    requires { at + stride ≤ length arcs.old }
    ensures { Puts arcs.old at (arc_numbers arc) arcs.new result }
{
    arcs[at + TAIL] = arc.tail;
    arcs[at + HEAD] = arc.head;
    arcs[at + KINK] = arc.kink;
    arcs[at + LOW] = arc.low;
    arcs[at + HIGH] = arc.high;
    at + STRIDE
}

// The arc of an edge of this strength: a plain one costs its length times that, a straight one allows none.
pub fn strength_arc(upper: usize, lower: usize, strength: u8) -> PackedArc
    requires { (upper < max_nodes) × (lower < max_nodes) }
    ensures { arc_numbers result ≡ packs (strength_arc strength upper lower ∷ []) }
{
    let amount = u32::from(strength);
    if amount <= MAX_WEIGHT {
        return PackedArc {
            tail: upper as u32,
            head: lower as u32,
            kink: KINK_ZERO as u32,
            low: FLOW_ZERO - amount,
            high: FLOW_ZERO + amount,
        };
    }
    PackedArc {
        tail: upper as u32,
        head: lower as u32,
        kink: KINK_ZERO as u32,
        low: LOW_NONE,
        high: HIGH_NONE,
    }
}

// The arc that keeps its head from standing further right of its tail than the kink.
pub fn upper_bound(tail: usize, head: usize, kink: usize) -> PackedArc
    requires { (tail ≤ max_nodes) × (head ≤ max_nodes) × (kink < 2 * kink_zero) }
    ensures { arc_numbers result ≡ tail ∷ head ∷ kink ∷ flow_zero ∷ high_none ∷ [] }
{
    PackedArc {
        tail: tail as u32,
        head: head as u32,
        kink: kink as u32,
        low: FLOW_ZERO,
        high: HIGH_NONE,
    }
}

// The arc of a maximum separation of node v and its right neighbour; 0 is none, and then the arc says nothing.
pub fn maximum(v: usize, separation: usize) -> PackedArc
    requires { (v < max_nodes) × (separation < kink_zero) }
    ensures { arc_numbers result ≡ packs (maximum_arc separation v ∷ []) }
{
    if separation == 0 {
        return PackedArc {
            tail: v as u32,
            head: (v + 1) as u32,
            kink: KINK_ZERO as u32,
            low: FLOW_ZERO,
            high: FLOW_ZERO,
        };
    }
    upper_bound(v, v + 1, KINK_ZERO + separation)
}
