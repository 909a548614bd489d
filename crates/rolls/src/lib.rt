// The totals of one sheet at many widths.
// Between `usize` and the stored types a number goes by `as`: there is no `From`, and `try_from` would test what is proved.
#![tactic(auto)]

mod entries;
mod limits;
mod order;
mod refusals;

ghost use Rattle.std.specs.Prelude.{◌≡◌, length, position, nat_lt};
ghost use Rattle.leb128.specs.Format.{outcome};
ghost use Rattle.sheet.specs.Reading.{read_sheet};
ghost use Rattle.sheet.specs.Limits.{max_width};
ghost use Rattle.rolls.specs.Totals.{widths_answer, totals_answer, Written};
ghost use Rattle.rolls.specs.inside.Held.{WrittenHeld};

use crate::entries::put_entries;
use crate::limits::MAX_WIDTHS;
use crate::refusals::MANY_WIDTHS;
use arcs::Loaded;
use arcs::inside::load_sheet;
use arcs::limits::{MAX_ELEMENTS, MAX_FIRSTS};
use leb128::Refusal;
use leb128::refusals::{OUTSIDE_LIMITS, SLICE_SHORT};
use sheet::limits::MAX_WIDTH;

// Writes the total of a sheet at each of at most 64 widths, or NO_TOTAL for a width without a drawing, into the front of the totals; or
// answers the refusal. The sheet is read once, and its own width plays no part.
pub fn totals(bytes: &[u8], widths: &[u32], totals: &mut [u32]) -> Result<usize, Refusal>
    ensures answer { outcome result ≡ totals_answer (read_sheet bytes.now) widths.now
        (length totals.old) }
    ensures slice { Written (read_sheet bytes.now) widths.now totals.old totals.new }
{
    let mut first = [0u16; MAX_FIRSTS];
    let mut arcs = [0u32; MAX_ELEMENTS];
    let mut sheet = load_sheet(bytes, &mut first, &mut arcs)?;
    totals_loaded(&mut sheet, widths, totals)
}

// The same for a loaded sheet, whatever the width that it was loaded with.
fn totals_loaded(sheet: &mut Loaded, widths: &[u32], totals: &mut [u32]) -> Result<usize, Refusal>
    ensures answer { outcome result ≡ widths_answer widths.now (length totals.old) }
    ensures slice { WrittenHeld sheet.old widths.now totals.old
        totals.new }
{
    let count = widths.len();
    if count > MAX_WIDTHS {
        return Err(Refusal::new(MANY_WIDTHS, 0));
    }
    if let Some(at) = first_outside(widths) {
        return Err(Refusal::new(OUTSIDE_LIMITS, at));
    }
    if totals.len() < count {
        return Err(Refusal::new(SLICE_SHORT, 0));
    }
    put_entries(sheet, widths, totals);
    Ok(count)
}

// The index of the first width outside its limits.
fn first_outside(widths: &[u32]) -> Option<usize>
    ensures { result ≡ position (λ w. nat_lt max_width w) widths.now }
{
    widths.iter().position(|w| *w > MAX_WIDTH)
}
