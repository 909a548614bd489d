// The text of a sheet's answer.
ghost use Rattle.std.specs.Prelude.{◌≤◌, length};
ghost use Rattle.sheet.specs.Reading.{read_sheet};
ghost use Rattle.engine.specs.Draws.{drawn_of};
ghost use Rattle.report.specs.Limits.{max_text};
ghost use Rattle.place.specs.Prints.{answer_text, Shows, PrintsFrom, Prints};
ghost use Rattle.place.specs.inside.Telling.{Answered};

use arcs::limits::MAX_ARCS;
use leb128::Refusal;
use report::{drawing_text, refusal_text};
use sheet::limits::MAX_NODES;

// Writes the text of an answer of drawing into the front of the slice.
fn tell(bytes: &[u8], places: &[u16], drawn: Result<u32, Refusal>, text: &mut [u8]) -> usize
    requires answered { Answered (read_sheet bytes.now) places.now (drawn_of drawn) }
    requires max_text_in_bounds { max_text ≤ length text.old }
    ensures { Shows (answer_text (read_sheet bytes.now) places.now (drawn_of drawn)) text.new result }
{
    match drawn {
        Ok(total) => drawing_text(bytes, places, total, text).unwrap_or(0),
        Err(refusal) => refusal_text(refusal, text).unwrap_or(0),
    }
}

// Draws a sheet into places and a list, and writes the text of the answer into the front of the slice.
fn answer_within(bytes: &[u8], places: &mut [u16], list: &mut [i32], text: &mut [u8]) -> usize
    requires { max_text ≤ length text.old }
    ensures { PrintsFrom (read_sheet bytes.now) places.old list.old text.new result }
{
    let drawn = engine::draw(bytes, places, list);
    tell(bytes, places, drawn, text)
}

// Draws a sheet, and writes the text of the answer into the front of the slice.
pub fn answer(bytes: &[u8], text: &mut [u8]) -> usize
    requires { max_text ≤ length text.old }
    ensures { Prints (read_sheet bytes.now) text.new result }
{
    let mut places = [0u16; MAX_NODES as usize];
    let mut list = [0i32; MAX_ARCS];
    answer_within(bytes, &mut places, &mut list, text)
}
