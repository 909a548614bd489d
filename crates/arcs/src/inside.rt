// Loading a sheet that stays in its slices, for crates above: the slices are lent on, so what they hold behind a refusal is not said, and
// it is no public call.
ghost use Rattle.std.specs.Prelude.{◌≡◌, IfOk};
ghost use Rattle.std.specs.Result.{result_map_both};
ghost use Rattle.sheet.specs.Reading.{read_sheet};
ghost use Rattle.arcs.specs.Loading.{loading, fitted, load_answer, load_firsts, load_arcs};

use crate::{Loaded, load};
use leb128::Refusal;

// Loads a sheet into two slices as `load` does, and answers the sheet that they hold, or the refusal.
pub fn load_sheet<'a>(
    bytes: &[u8],
    first: &'a mut [u16],
    arcs: &'a mut [u32],
) -> Result<Loaded<'a>, Refusal>
    ensures answer { loading (result_map_both (λ s. s.counts) (λ r. r) result) ≡ load_answer
        (fitted first.old arcs.old (read_sheet bytes.now)) }
    ensures first { IfOk result (λ s. s.first.now ≡ load_firsts
        (fitted first.old arcs.old (read_sheet bytes.now)) first.old) }
    ensures arcs { IfOk result (λ s. s.arcs.now ≡ load_arcs
        (fitted first.old arcs.old (read_sheet bytes.now)) arcs.old) }
{
    let counts = load(bytes, first, arcs)?;
    Ok(Loaded {
        first,
        arcs,
        counts,
    })
}
