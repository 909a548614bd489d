// What a packed edge counts.
ghost use Rattle.std.specs.Prelude.{◌≡◌};
ghost use Rattle.packed.specs.Ends.{edge_from};
ghost use Rattle.totals.specs.Lengths.{counted_at};

use packed::{edge_lower, edge_upper, edge_weight, place};

// What packed edge i counts at these places: its length times its weight.
pub fn counted(arcs: &[u32], places: &[u16], i: usize) -> usize
    ensures { result ≡ counted_at places.now (edge_from i arcs.now) }
{
    let upper = place(places, edge_upper(arcs, i) as usize);
    let lower = place(places, edge_lower(arcs, i) as usize);
    let weight = edge_weight(arcs, i) as usize;
    weight * upper.abs_diff(lower)
}
