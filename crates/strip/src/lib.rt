// The library for other languages: calls under C names, each with its answer in one word, and its version. Nothing but the lent slices
// is written.
// Between `usize` and the stored types a number goes by `as`: there is no `From`, and `try_from` would test what is proved.
#![tactic(auto)]

mod version;
mod words;

ghost use Rattle.std.specs.Prelude.{◌≡◌, length};
ghost use Rattle.leb128.specs.Format.{answered, filled};
ghost use Rattle.sheet.specs.Reading.{read_sheet, write_sheet, read_coordinates, write_coordinates};
ghost use Rattle.checker.specs.Verdict.{check_answer};
ghost use Rattle.rolls.specs.Totals.{totals_answer, Written};
ghost use Rattle.strip.specs.Version.{version};
ghost use Rattle.strip.specs.Words.{outcome_word, judgement_word, DrawsWord, NarrowsWord};

use crate::version::{MAJOR, MINOR, PATCH};
use crate::words::{alone, answer_word, total, total_width, yes_no};

// Reads a sheet's bytes into the front of the numbers.
#[unsafe(no_mangle)]
pub extern "C" fn strip_read(bytes: &[u8], numbers: &mut [u16]) -> u64
    ensures answer { result ≡ outcome_word (answered (length numbers.old) (read_sheet bytes.now)) }
    ensures slice { numbers.new ≡ filled (read_sheet bytes.now) numbers.old }
{
    answer_word(sheet::read(bytes, numbers).map(alone))
}

// Writes the sheet of a number list into the front of the bytes.
#[unsafe(no_mangle)]
pub extern "C" fn strip_write(numbers: &[u16], bytes: &mut [u8]) -> u64
    ensures answer { result ≡ outcome_word (answered (length bytes.old) (write_sheet numbers.now)) }
    ensures slice { bytes.new ≡ filled (write_sheet numbers.now) bytes.old }
{
    answer_word(sheet::write(numbers, bytes).map(alone))
}

// Draws a sheet into the fronts of the places and the list.
#[unsafe(no_mangle)]
pub extern "C" fn strip_draw(bytes: &[u8], places: &mut [u16], list: &mut [i32]) -> u64
    ensures { DrawsWord (read_sheet bytes.now) places.old list.old
        places.new list.new result }
{
    answer_word(engine::draw(bytes, places, list).map(total))
}

// Says whether places are a drawing of a sheet and the list shows that none has a smaller total.
#[unsafe(no_mangle)]
pub extern "C" fn strip_check(bytes: &[u8], places: &[u16], list: &[i32]) -> u64
    ensures { result ≡ judgement_word (check_answer (read_sheet bytes.now) places.now list.now) }
{
    answer_word(checker::check(bytes, places, list).map(yes_no))
}

// Tells the least width at which a sheet can be drawn, whatever width it has, and the least total at that width.
#[unsafe(no_mangle)]
pub extern "C" fn strip_narrowest(bytes: &[u8]) -> u64
    ensures { NarrowsWord (read_sheet bytes.now) result }
{
    answer_word(engine::minimum_width(bytes).map(total_width))
}

// Writes the total of a sheet at each of at most 64 widths, or 4,294,967,295 for a width without a drawing, into the front of the
// totals.
#[unsafe(no_mangle)]
pub extern "C" fn strip_totals(bytes: &[u8], widths: &[u32], totals: &mut [u32]) -> u64
    ensures answer { result ≡ outcome_word (totals_answer (read_sheet bytes.now) widths.now
        (length totals.old)) }
    ensures slice { Written (read_sheet bytes.now) widths.now totals.old totals.new }
{
    answer_word(rolls::totals(bytes, widths, totals).map(alone))
}

// Reads a coordinate file's bytes into the front of the numbers.
#[unsafe(no_mangle)]
pub extern "C" fn strip_read_drawing(file: &[u8], numbers: &mut [u16]) -> u64
    ensures answer { result ≡ outcome_word (answered (length numbers.old) (read_coordinates file.now)) }
    ensures slice { numbers.new ≡ filled (read_coordinates file.now) numbers.old }
{
    answer_word(sheet::read_coordinates(file, numbers).map(alone))
}

// Writes the coordinate file of a number list into the front of the file.
#[unsafe(no_mangle)]
pub extern "C" fn strip_write_drawing(numbers: &[u16], file: &mut [u8]) -> u64
    ensures answer { result ≡ outcome_word (answered (length file.old) (write_coordinates numbers.now)) }
    ensures slice { file.new ≡ filled (write_coordinates numbers.now) file.old }
{
    answer_word(sheet::write_coordinates(numbers, file).map(alone))
}

// Tells the version of the library in one number: MAJOR · 2^16 + MINOR · 2^8 + PATCH.
#[unsafe(no_mangle)]
pub extern "C" fn strip_version() -> u32
    ensures { result ≡ version }
{
    MAJOR * 65536 + MINOR * 256 + PATCH
}

// The numbers that a word tells of a result.
#[derive(Clone, Copy)]
struct Told {
    second: u16,
    value: usize,
}
