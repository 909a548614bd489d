// Numbers and lists of them as lowercase hex digits.
ghost use Rattle.std.specs.Prelude.{◌<◌, ◌≤◌, length};

// Whether a byte is a lowercase hex digit.
pub fn is_digit(byte: u8) -> bool {
    matches!(byte, b'0'..=b'9' | b'a'..=b'f')
}

// The value of a digit; 0 for any other byte.
fn digit(byte: u8) -> u32
    ensures { result < 16 }
{
    match byte {
        b'0'..=b'9' => u32::from(byte - b'0'),
        b'a'..=b'f' => u32::from(byte - b'a' + 10),
        _ => 0,
    }
}

// The number of these digits; of more than eight, that of the last eight.
pub fn number(digits: &[u8]) -> u32 {
    let mut n: u32 = 0;
    for byte in digits {
        n = n.wrapping_mul(16).wrapping_add(digit(*byte));
    }
    n
}

// A number that a fixed count of digits writes.
pub trait Hex {
    // How many digits it has.
    fn digits() -> usize
        ensures { 0 < result };

    // The number with these bits; those above its width do not count.
    fn of(bits: u32) -> Self;
}

impl Hex for u8 {
    fn digits() -> usize {
        2
    }

    fn of(bits: u32) -> u8 {
        (bits & 0xff) as u8
    }
}

impl Hex for u16 {
    fn digits() -> usize {
        4
    }

    fn of(bits: u32) -> u16 {
        (bits & 0xffff) as u16
    }
}

impl Hex for u32 {
    fn digits() -> usize {
        8
    }

    fn of(bits: u32) -> u32 {
        bits
    }
}

impl Hex for i32 {
    fn digits() -> usize {
        8
    }

    fn of(bits: u32) -> i32 {
        bits.cast_signed()
    }
}

// Puts the numbers of the text at the start of the slice, and answers how many.
pub fn list<T: Hex + Copy>(text: &[u8], list: &mut [T]) -> usize
    ensures { result ≤ length list.new }
{
    let width = T::digits();
    let count = (text.len() / width).min(list.len());
    for (x, digits) in list.iter_mut().zip(text.chunks_exact(width)) {
        *x = T::of(number(digits));
    }
    count
}
