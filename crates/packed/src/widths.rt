// Packed arcs at another width.
ghost use Rattle.std.specs.Prelude.{◌≡◌};
ghost use Rattle.packed.specs.Widths.{widened_kink, widened};

use network::layout::{KINK, KINK_ZERO, STRIDE, TAIL};

// Sets the width of packed arcs: the kink of every arc that leaves ground, since those are the right boundaries.
pub fn set_width(arcs: &mut [u32], ground: usize, width: u16)
    ensures { arcs.new ≡ widened ground width arcs.old }
{
    // By index: of what chunks_exact_mut lends, no proof knows what it holds afterwards.
    for i in 0..arcs.len() / STRIDE {
        let at = STRIDE * i;
        arcs[at + KINK] = widened_kink(ground, width, arcs[at + TAIL], arcs[at + KINK]);
    }
}

// The kink of an arc by its tail, as it is stored: the width if the arc leaves ground, else what it was.
fn widened_kink(ground: usize, width: u16, tail: u32, kink: u32) -> u32
    ensures { result ≡ widened_kink ground width tail kink }
{
    if tail as usize == ground {
        return KINK_ZERO as u32 + u32::from(width);
    }
    kink
}
