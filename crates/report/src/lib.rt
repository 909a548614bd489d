// The text of an answer: of a drawing, or of a refusal.
// Between `usize` and the stored types a number goes by `as`: there is no `From`, and `try_from` would test what is proved.
#![tactic(auto)]

mod delivery;
pub mod limits;
mod lines;
mod writer;

ghost use Rattle.std.specs.Prelude.{◌≡◌, length};
ghost use Rattle.leb128.specs.Format.{outcome, answered, filled};
ghost use Rattle.leb128.specs.Format.Result.{elements};
ghost use Rattle.sheet.specs.Reading.{read_sheet};
ghost use Rattle.sheet.specs.Layout.{LaidOut};
ghost use Rattle.report.specs.Text.{drawing_text, refusal_text};

use crate::delivery::deliver;
use crate::limits::MAX_TEXT;
use crate::lines::{put_drawing, put_refusal};
use leb128::Refusal;
use leb128::refusals::SLICE_SHORT;
use sheet::limits::MAX_NUMBERS;
use sheet::locate;

// Writes the text of a sheet's drawing into the front of the lent slice: the total, and each node's layer, position and
// place.
pub fn drawing_text(
    bytes: &[u8],
    places: &[u16],
    total: u32,
    text: &mut [u8],
) -> Result<usize, Refusal>
    ensures answer { outcome result ≡ answered (length text.old)
        (drawing_text (read_sheet bytes.now) places.now total) }
    ensures slice { text.new ≡ filled (drawing_text (read_sheet bytes.now) places.now total)
        text.old }
{
    let mut numbers = [0u16; MAX_NUMBERS];
    let count = sheet::read(bytes, &mut numbers)?;
    sheet_text(&numbers[..count], places, total, text)
}

// Writes the text of a refusal into the front of the lent slice.
pub fn refusal_text(refusal: Refusal, text: &mut [u8]) -> Result<usize, Refusal>
    ensures answer { outcome result ≡ answered (length text.old) (refusal_text refusal) }
    ensures slice { text.new ≡ filled (refusal_text refusal) text.old }
{
    let mut room = [0u8; MAX_TEXT];
    let count = put_refusal(refusal, &mut room);
    deliver(&room[..count], text)
}

// Writes the text of a drawing, of a good sheet's numbers, into the front of the lent slice.
fn sheet_text(
    numbers: &[u16],
    places: &[u16],
    total: u32,
    text: &mut [u8],
) -> Result<usize, Refusal>
    requires { LaidOut numbers.now }
    ensures answer { outcome result ≡ answered (length text.old)
        (drawing_text (elements numbers.now) places.now total) }
    ensures slice { text.new ≡ filled (drawing_text (elements numbers.now) places.now total)
        text.old }
{
    if locate(numbers, places.len()).is_some() {
        return Err(Refusal::new(SLICE_SHORT, 0));
    }
    let mut room = [0u8; MAX_TEXT];
    let count = put_drawing(numbers, places, total, &mut room);
    deliver(&room[..count], text)
}
