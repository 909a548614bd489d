// The lines of the standard input.
ghost use Rattle.std.specs.Prelude.{◌≤◌, length};

// The standard input.
const STANDARD_INPUT: i32 = 0;

// Reads the next byte of the input, if there is one.
fn next_byte() -> Option<u8> {
    let mut piece = [0u8; 1];
    if io::read_full(STANDARD_INPUT, &mut piece) == 0 {
        return None;
    }
    Some(piece[0])
}

// Reads the next line into the slice. Answers its length with its line end, which is not put there: 0 at the end of the input.
pub fn read_line(line: &mut [u8]) -> usize
    ensures { result ≤ length line.new }
{
    for n in 0..line.len() {
        match next_byte() {
            None => return n,
            Some(b'\n') => return n + 1,
            Some(byte) => line[n] = byte,
        }
    }
    line.len()
}
