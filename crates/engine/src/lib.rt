// Drawing a sheet: the leftmost least drawing, its total and the list that shows the total to be least; and the minimum width at
// which a sheet can be drawn.
// Between `usize` and the stored types a number goes by `as`: there is no `From`, and `try_from` would test what is proved.
#![tactic(auto)]

pub mod inside;
mod limits;
mod refusals;
mod results;
mod stages;
mod widths;

ghost use Rattle.sheet.specs.Reading.{read_sheet};
ghost use Rattle.engine.specs.Draws.{drawn_of, Draws};
ghost use Rattle.engine.specs.MinimumWidth.{narrowing, Narrows};
ghost use Rattle.engine.specs.inside.Stages.{DrawsHeld};

use crate::limits::{FEW_BYTES, FEW_ELEMENTS};
use crate::refusals::NO_DRAWING;
use crate::stages::draw_arcs;
use crate::widths::narrow;
use arcs::Loaded;
use arcs::inside::load_sheet;
use arcs::limits::{MAX_ELEMENTS, MAX_FIRSTS};
use leb128::Refusal;
use leb128::refusals::SLICE_SHORT;
use totals::sheet_total;

// The leftmost least drawing of a sheet, in front of the places, and a list that shows its total to be least, in front of the
// list. Answers the total, or the refusal.
pub fn draw(bytes: &[u8], places: &mut [u16], list: &mut [i32]) -> Result<u32, Refusal>
    ensures { Draws (read_sheet bytes.now) places.old list.old
        places.new list.new (drawn_of result) }
{
    if bytes.len() <= FEW_BYTES {
        let mut first = [0u16; MAX_FIRSTS];
        let mut arcs = [0u32; FEW_ELEMENTS];
        if let Ok(sheet) = load_sheet(bytes, &mut first, &mut arcs) {
            return draw_loaded(&sheet, places, list);
        }
    }
    draw_any(bytes, places, list)
}

// The same with room for every sheet.
fn draw_any(bytes: &[u8], places: &mut [u16], list: &mut [i32]) -> Result<u32, Refusal>
    ensures { Draws (read_sheet bytes.now) places.old list.old
        places.new list.new (drawn_of result) }
{
    let mut first = [0u16; MAX_FIRSTS];
    let mut arcs = [0u32; MAX_ELEMENTS];
    let sheet = load_sheet(bytes, &mut first, &mut arcs)?;
    draw_loaded(&sheet, places, list)
}

// A width, and the least total at it.
#[derive(Clone, Copy)]
pub struct Narrowest {
    pub width: u16,
    pub total: u32,
}

// The least width at which a sheet can be drawn, whatever width it has, and the least total at that width; or the refusal.
pub fn minimum_width(bytes: &[u8]) -> Result<Narrowest, Refusal>
    ensures { Narrows (read_sheet bytes.now) (narrowing result) }
{
    let mut first = [0u16; MAX_FIRSTS];
    let mut arcs = [0u32; MAX_ELEMENTS];
    let mut sheet = load_sheet(bytes, &mut first, &mut arcs)?;
    narrow(&mut sheet)
}

// Draws a loaded sheet, whatever the width that it was loaded with.
fn draw_loaded(sheet: &Loaded, places: &mut [u16], list: &mut [i32]) -> Result<u32, Refusal>
    ensures { DrawsHeld sheet.now places.old list.old
        places.new list.new (drawn_of result) }
{
    let counts = sheet.counts;
    if places.len() < counts.nodes {
        return Err(Refusal::new(SLICE_SHORT, 0));
    }
    if list.len() < counts.arcs {
        return Err(Refusal::new(SLICE_SHORT, 0));
    }
    // A sheet's arcs are never malformed.
    if draw_arcs(sheet, places, list).is_err() {
        return Err(Refusal::new(NO_DRAWING, 0));
    }
    Ok(sheet_total(sheet, &places[..counts.nodes]))
}
