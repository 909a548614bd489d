// What a format decides: its magic, its walk, and its second passes. Each is a match over two formats: as a trait it is no shorter, and a
// format is also what the definitions speak of.
ghost use Rattle.std.specs.Prelude.{◌≡◌, length};
ghost use Rattle.std.proofs.lemmas.List.Edits.{sets};
ghost use Rattle.leb128.specs.Grammar.{Accepts};
ghost use Rattle.leb128.specs.Format.{encoded};
ghost use Rattle.leb128.specs.Format.Result.{elements};
ghost use Rattle.leb128.specs.inside.Storing.{Room};
ghost use Rattle.sheet.specs.Limits.{magic_bytes};
ghost use Rattle.sheet.specs.inside.Cursor.{Counted, «walk_from», walked};
ghost use Rattle.sheet.specs.inside.Formats.{magic_of, grammar_of, read_format, FormatBytes};

use crate::limits::MAGIC_BYTES;
use crate::{Awaited, Cursor, Format, Input, Plain, coordinates, passes, walk};
use leb128::Refusal;

// The bytes that a sheet starts with.
const SHEET: [u8; MAGIC_BYTES] = *b"SP1";

// The bytes that a coordinate file starts with.
const COORDINATES: [u8; MAGIC_BYTES] = *b"SD1";

// The bytes that a format starts with.
pub fn magic(format: Format) -> [u8; MAGIC_BYTES]
    ensures { result ≡ magic_of format }
{
    match format {
        Format::Sheet => SHEET,
        Format::Coordinates => COORDINATES,
    }
}

// The grammar of a format, from a cursor to the end that it finds or to the first refusal.
pub fn walk(format: Format, input: Input, start: Cursor) -> Result<Cursor, Refusal>
    requires { Counted input start }
    ensures { walked result ≡ walk_from input.entry start (grammar_of format) }
{
    match format {
        Format::Sheet => walk::walk(input, start),
        Format::Coordinates => coordinates::walk(input, start),
    }
}

// Reads the numbers of good bytes into a slice of just their count.
pub fn fill(format: Format, bytes: &[u8], numbers: &mut [u16])
    requires { FormatBytes format bytes.now (length numbers.old) }
    ensures { read_format format bytes.now ≡ elements numbers.new }
{
    match format {
        Format::Sheet => passes::fill(bytes, numbers, Plain),
        Format::Coordinates => passes::fill(bytes, numbers, Awaited::Layers),
    }
}

// Writes the numbers of a good list behind the magic.
pub fn put_numbers(format: Format, numbers: &[u16], bytes: &mut [u8])
    requires accepts { Accepts (grammar_of format) numbers.now }
    requires room { Room bytes.old magic_bytes (encoded (grammar_of format) numbers.now) }
    ensures { bytes.new ≡ sets bytes.old magic_bytes (encoded (grammar_of format) numbers.now) }
{
    match format {
        Format::Sheet => passes::put_numbers(numbers, bytes, Plain),
        Format::Coordinates => passes::put_numbers(numbers, bytes, Awaited::Layers),
    }
}
