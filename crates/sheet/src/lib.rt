// Reader and writer of sheets and of coordinate files: one pass walks the grammar and writes nothing, a second one fills the
// lent slice.
// Between `usize` and the stored types a number goes by `as`: there is no `From`, and `try_from` would test what is proved.
#![tactic(auto)]

mod coordinates;
mod formats;
pub mod layout;
pub mod limits;
mod nodes;
mod order;
mod passes;
pub mod refusals;
mod source;
mod start;
mod walk;
mod writer;

ghost use Rattle.std.specs.Prelude.{◌≡◌, length};
ghost use Rattle.leb128.specs.Format.{outcome, answered, filled};
ghost use Rattle.sheet.specs.Reading.{read_sheet, write_sheet, read_coordinates, write_coordinates};
ghost use Rattle.sheet.specs.inside.Formats.{read_format, write_format};
ghost use Rattle.sheet.specs.inside.Cursor.{walked, ended, settled};

use leb128::Refusal;
use leb128::refusals::{SLICE_SHORT, SOMETHING_FOLLOWS};
pub use nodes::locate;

// Reads a sheet's bytes into the front of the lent slice.
#[tactic(auto, unfolding(crate::specs::Reading::read_sheet))]
pub fn read(bytes: &[u8], numbers: &mut [u16]) -> Result<usize, Refusal>
    ensures answer { outcome result ≡ answered (length numbers.old) (read_sheet bytes.now) }
    ensures slice { numbers.new ≡ filled (read_sheet bytes.now) numbers.old }
{
    read_format(Format::Sheet, bytes, numbers)
}

// Writes the sheet of a number list into the front of the lent slice.
#[tactic(auto, unfolding(crate::specs::Reading::write_sheet))]
pub fn write(numbers: &[u16], bytes: &mut [u8]) -> Result<usize, Refusal>
    ensures answer { outcome result ≡ answered (length bytes.old) (write_sheet numbers.now) }
    ensures slice { bytes.new ≡ filled (write_sheet numbers.now) bytes.old }
{
    write_format(Format::Sheet, numbers, bytes)
}

// Reads a coordinate file's bytes into the front of the lent slice.
#[tactic(auto, unfolding(crate::specs::Reading::read_coordinates))]
pub fn read_coordinates(bytes: &[u8], numbers: &mut [u16]) -> Result<usize, Refusal>
    ensures answer { outcome result ≡ answered (length numbers.old) (read_coordinates bytes.now) }
    ensures slice { numbers.new ≡ filled (read_coordinates bytes.now) numbers.old }
{
    read_format(Format::Coordinates, bytes, numbers)
}

// Writes the coordinate file of a number list into the front of the lent slice.
#[tactic(auto, unfolding(crate::specs::Reading::write_coordinates))]
pub fn write_coordinates(numbers: &[u16], bytes: &mut [u8]) -> Result<usize, Refusal>
    ensures answer { outcome result ≡ answered (length bytes.old) (write_coordinates numbers.now) }
    ensures slice { bytes.new ≡ filled (write_coordinates numbers.now) bytes.old }
{
    write_format(Format::Coordinates, numbers, bytes)
}

// Where a node stands: its layer and its position there, from 1.
#[derive(Clone, Copy, PartialEq, Eq)]
pub struct Location {
    pub layer: usize,
    pub position: usize,
}

// What is read or written.
#[derive(Clone, Copy)]
enum Format {
    Sheet,
    Coordinates,
}

// What a walk goes along: the bytes of a format, or a number list.
#[derive(Clone, Copy)]
enum Input<'a> {
    Bytes(&'a [u8]),
    Numbers(&'a [u16]),
}

// Where the next number stands in an input: at a position; the numbers before it take count elements where they are written.
#[derive(Clone, Copy)]
struct Cursor {
    at: usize,
    count: usize,
}

// What a number may be: from low to high. Bytes hold what it lies above the base.
#[derive(Clone, Copy)]
struct Range {
    base: u32,
    low: u32,
    high: u32,
}

// What comes next in a sheet: a number that its bytes hold as itself.
#[derive(Clone, Copy)]
struct Plain;

// What comes next in a coordinate file.
#[derive(Clone, Copy)]
enum Awaited {
    // The count of layers.
    Layers,
    // The coordinate of one of the nodes of this layer that are to come: it stands at low or right of it, and its bytes hold what it
    // lies above the base. If none is to come, a layer's count of nodes; the end, if no layer is to come. So many nodes may yet be
    // counted (room). One variant for both: with one each, writing a file takes a quarter more instructions.
    Nodes {
        layers: u32,
        room: u32,
        nodes: u32,
        base: u32,
        low: u32,
    },
}

// What stands at a cursor: a value with the next cursor, or the refusal.
type Step = Result<(u32, Cursor), Refusal>;

// Reads the bytes of a format into the front of the lent slice.
fn read_format(format: Format, bytes: &[u8], numbers: &mut [u16]) -> Result<usize, Refusal>
    ensures answer { outcome result ≡ answered (length numbers.old) (read_format format bytes.now) }
    ensures slice { numbers.new ≡ filled (read_format format bytes.now) numbers.old }
{
    let count = settle(start::walk_bytes(format, bytes), bytes.len(), numbers.len())?;
    formats::fill(format, bytes, &mut numbers[..count]);
    Ok(count)
}

// Writes a number list in a format into the front of the lent slice.
fn write_format(format: Format, numbers: &[u16], bytes: &mut [u8]) -> Result<usize, Refusal>
    ensures answer { outcome result ≡ answered (length bytes.old) (write_format format numbers.now) }
    ensures slice { bytes.new ≡ filled (write_format format numbers.now) bytes.old }
{
    let count = settle(
        start::walk_list(format, numbers),
        numbers.len(),
        bytes.len(),
    )?;
    writer::put_magic(bytes, formats::magic(format));
    formats::put_numbers(format, numbers, bytes);
    Ok(count)
}

// What the end of a walk comes to: something may follow it before the end, and the lent slice has only so much room.
#[tactic(auto, unfolding(leb128::specs::Format::outcome, crate::specs::inside::Cursor::ended, crate::specs::inside::Cursor::settled))]
fn settle(last: Result<Cursor, Refusal>, end: usize, room: usize) -> Result<usize, Refusal>
    ensures { outcome result ≡ settled room (ended end (walked last)) }
{
    let c = last?;
    if c.at < end {
        return Err(Refusal::new(SOMETHING_FOLLOWS, c.at));
    }
    if room < c.count {
        return Err(Refusal::new(SLICE_SHORT, 0));
    }
    Ok(c.count)
}
