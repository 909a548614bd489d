// Where a walk starts: behind the magic of the bytes, or at the front of a number list.
ghost use Rattle.std.specs.Prelude.{◌≡◌};
ghost use Rattle.sheet.specs.inside.Cursor.{walked};
ghost use Rattle.sheet.specs.inside.Formats.{measured_bytes, measured_list};

use crate::formats::{magic, walk};
use crate::limits::MAGIC_BYTES;
use crate::{Cursor, Format, Input};
use leb128::Refusal;
use leb128::refusals::{INPUT_ENDED, OTHER_MAGIC};

// The walk along the bytes of a format.
pub fn walk_bytes(format: Format, bytes: &[u8]) -> Result<Cursor, Refusal>
    ensures { walked result ≡ measured_bytes format bytes.now }
{
    if bytes.len() < MAGIC_BYTES {
        return Err(Refusal::new(INPUT_ENDED, bytes.len()));
    }
    if !bytes.starts_with(&magic(format)) {
        return Err(Refusal::new(OTHER_MAGIC, 0));
    }
    let start = Cursor {
        at: MAGIC_BYTES,
        count: 0,
    };
    walk(format, Input::Bytes(bytes), start)
}

// The walk along a number list in a format.
pub fn walk_list(format: Format, numbers: &[u16]) -> Result<Cursor, Refusal>
    ensures { walked result ≡ measured_list format numbers.now }
{
    let start = Cursor {
        at: 0,
        count: MAGIC_BYTES,
    };
    walk(format, Input::Numbers(numbers), start)
}
