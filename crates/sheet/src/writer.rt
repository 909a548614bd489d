// What the writer's second pass stores: a number, and the magic.
ghost use Rattle.std.specs.Prelude.{◌≡◌, ◌<◌, ◌≤◌, length};
ghost use Rattle.std.proofs.lemmas.List.Edits.{sets};
ghost use Rattle.leb128.specs.Limits.{number_bytes, number_limit};
ghost use Rattle.leb128.specs.Number.{encode};
ghost use Rattle.leb128.specs.inside.Storing.{Room, Puts};
ghost use Rattle.sheet.specs.Limits.{magic_bytes};

use crate::limits::MAGIC_BYTES;
use leb128::write_number;

// Writes a number that has its form and its room at a position, and gives the position behind it.
pub fn put(bytes: &mut [u8], at: usize, n: u32) -> usize
    requires n_lt_number_limit { n < number_limit }
    requires room { Room bytes.old at (encode number_bytes n) }
    ensures { Puts bytes.old at (encode number_bytes n) bytes.new result }
{
    write_number(bytes, at, n).unwrap()
}

// Writes a magic into the front of the slice.
pub fn put_magic(bytes: &mut [u8], magic: [u8; MAGIC_BYTES])
    requires { magic_bytes ≤ length bytes.old }
    ensures { bytes.new ≡ sets bytes.old 0 magic }
{
    bytes[..MAGIC_BYTES].copy_from_slice(&magic);
}
