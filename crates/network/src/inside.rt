// The number of an arc at an offset, for crates that know that the arc is inside a slice: it asks for that, so it is no public call.
ghost use Rattle.std.specs.Prelude.{◌≡◌, ◌+◌, ◌*◌, ◌≤◌, ◌<◌, length};
ghost use Rattle.network.specs.Packed.{stride, word_limit};
ghost use Rattle.network.specs.Net.{at};

use crate::layout::STRIDE;

// The number of arc i at an offset.
pub fn part_of(arcs: &[u32], i: usize, offset: usize) -> usize
    requires { (stride * i + stride ≤ length arcs.now) × (offset < stride) }
    ensures { (result ≡ at arcs.now (stride * i + offset)) × (result < word_limit) }
{
    arcs[STRIDE * i + offset] as usize
}
