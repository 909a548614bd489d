// A loaded sheet at other widths: the total at a width, and the minimum width.
ghost use Rattle.std.specs.Prelude.{◌≡◌, ◌≤◌, ◌<◌, length};
ghost use Rattle.leb128.specs.Limits.{list_limit};
ghost use Rattle.sheet.specs.Limits.{max_width};
ghost use Rattle.drawing.specs.laws.Widths.{greatest};
ghost use Rattle.arcs.specs.HeldSheets.{AtWidth};
ghost use Rattle.engine.specs.Draws.{drawn_of};
ghost use Rattle.engine.specs.MinimumWidth.{narrowing};
ghost use Rattle.engine.specs.inside.Widths.{TotalHeld, NarrowsHeld, LowestHeld, LeavesLowest};

use crate::limits::MAX_GROUNDED;
use crate::refusals::NO_WIDTH;
use crate::{Narrowest, draw_loaded};
use arcs::Loaded;
use arcs::limits::MAX_ARCS;
use difference::least;
use leb128::Refusal;
use network::Unsolved;
use sheet::limits::{MAX_NODES, MAX_WIDTH};

// The greatest width that a sheet may have.
const WIDEST: u16 = MAX_WIDTH as u16;

// The minimum width of a loaded sheet, and the total at it.
pub fn narrow(sheet: &mut Loaded) -> Result<Narrowest, Refusal>
    ensures { NarrowsHeld sheet.old (narrowing result) }
{
    let mut values = [0u32; MAX_GROUNDED];
    sheet.set_width(WIDEST);
    let nodes = sheet.counts.nodes;
    match lowest(sheet, &mut values) {
        Ok(()) => narrow_to(sheet, &values[..nodes]),
        Err(_) => Err(Refusal::new(NO_WIDTH, 0)),
    }
}

// The lowest potentials of a loaded sheet's nodes and ground, in front of the values, or that none are feasible.
fn lowest(sheet: &Loaded, values: &mut [u32]) -> Result<(), Unsolved>
    requires { sheet.now.counts.nodes < length values.old }
    ensures { LeavesLowest sheet.now values.new result }
{
    // A sheet's arcs are never malformed.
    least(
        sheet.arcs,
        sheet.counts.arcs,
        sheet.counts.nodes + 1,
        values,
    )
}

// The same, from the lowest drawing at the greatest width: its greatest coordinate is the minimum width.
fn narrow_to(sheet: &mut Loaded, low: &[u32]) -> Result<Narrowest, Refusal>
    requires { LowestHeld sheet.old low.now }
    ensures { NarrowsHeld sheet.old (narrowing result) }
{
    let width = greatest(low);
    let total = total_at(sheet, width)?;
    Ok(Narrowest { width, total })
}

// The total of a loaded sheet at a width, or that there is no drawing; the sheet stays at that width.
pub fn total_at(sheet: &mut Loaded, width: u16) -> Result<u32, Refusal>
    requires { width ≤ max_width }
    ensures answer { TotalHeld sheet.old width (drawn_of result) }
    ensures sheet { AtWidth sheet.old width sheet.new }
{
    let mut places = [0u16; MAX_NODES as usize];
    let mut list = [0i32; MAX_ARCS];
    sheet.set_width(width);
    draw_loaded(sheet, &mut places, &mut list)
}

// The greatest of numbers that fit 16 bits, 0 where there are none.
fn greatest(numbers: &[u32]) -> u16
    requires { greatest numbers.now < list_limit }
    ensures { result ≡ greatest numbers.now }
{
    let mut most = 0;
    for n in numbers {
        most = most.max(*n);
    }
    most as u16
}
