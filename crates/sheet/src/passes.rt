// The second passes of a format: a loop each over its numbers, by a state that says how the bytes hold the next one.
ghost use Rattle.std.specs.Prelude.{◌≡◌, length};
ghost use Rattle.std.proofs.lemmas.List.Edits.{sets};
ghost use Rattle.leb128.specs.Grammar.{Accepts};
ghost use Rattle.leb128.specs.Format.{encoded};
ghost use Rattle.leb128.specs.Format.Result.{elements};
ghost use Rattle.leb128.specs.inside.Storing.{Room};
ghost use Rattle.sheet.specs.Limits.{magic_bytes};
ghost use Rattle.sheet.specs.inside.Formats.{grammar_of, read_format, FormatBytes};

use crate::limits::MAGIC_BYTES;
use crate::order::Order;
use crate::source::number_above;
use crate::writer::put;

// Decodes the numbers of good bytes into a slice of just their count.
pub fn fill<O: Order>(bytes: &[u8], numbers: &mut [u16], start: O)
    requires format_bytes { FormatBytes O.format bytes.now (length numbers.old) }
    requires leads { O.Leads start (grammar_of O.format) }
    ensures { read_format O.format bytes.now ≡ elements numbers.new }
{
    let mut at = MAGIC_BYTES;
    let mut s = start;
    for number in numbers.iter_mut() {
        let base = s.base();
        let (n, next) = number_above(bytes, at, base).unwrap();
        // An `as`: a `try_from` would test what is proved.
        *number = n as u16;
        at = next;
        s = s.behind(n);
    }
}

// Writes the numbers of a good list behind the magic.
pub fn put_numbers<O: Order>(numbers: &[u16], bytes: &mut [u8], start: O)
    requires accepts { Accepts (grammar_of O.format) numbers.now }
    requires room { Room bytes.old magic_bytes (encoded (grammar_of O.format) numbers.now) }
    requires leads { O.Leads start (grammar_of O.format) }
    ensures { bytes.new ≡ sets bytes.old magic_bytes (encoded (grammar_of O.format) numbers.now) }
{
    let mut at = MAGIC_BYTES;
    let mut s = start;
    for number in numbers {
        let base = s.base();
        let n = u32::from(*number);
        s = s.behind(n);
        at = put(bytes, at, n - base);
    }
}
