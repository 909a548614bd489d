// Texts stored one behind the other.
ghost use Rattle.leb128.specs.inside.Storing.{Room, Puts};
ghost use Rattle.report.specs.Text.{field};

use crate::limits::MAX_DIGITS;

// Stores a text at a position, and gives the position behind it.
pub fn put(text: &mut [u8], at: usize, part: &[u8]) -> usize
    requires { Room text.old at part.now }
    ensures { Puts text.old at part.now text.new result }
{
    let next = at + part.len();
    text[at..next].copy_from_slice(part);
    next
}

// Stores a number in decimal digits and the character behind it.
pub fn put_field(text: &mut [u8], at: usize, n: u64, stop: u8) -> usize
    requires { Room text.old at (field n stop) }
    ensures { Puts text.old at (field n stop) text.new result }
{
    let mut digits = [0u8; MAX_DIGITS];
    let count = io::decimal(n, &mut digits);
    let next = put(text, at, &digits[..count]);
    text[next] = stop;
    next + 1
}
