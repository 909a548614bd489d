// Test of the library: answers each case of the standard input with what the library answers.
// Between `usize` and the stored types a number goes by `as`: there is no `From`, and `try_from` would test what is proved.
#![tactic(auto)]

mod cases;
mod draw;
mod hex;
mod input;
mod narrowest;
mod show;
mod widths;

use cases::case;
use input::read_line;

// The bytes that a line may have, its line end among them.
const LINE_BYTES: usize = 32768;

// Whether a line names the cases below it and is none itself.
fn is_comment(line: &[u8]) -> bool {
    line.first() == Some(&b'#')
}

// Answers a line: a comment is copied, any other line is a case.
fn answer(line: &[u8]) {
    if is_comment(line) {
        show::text(line);
    } else if !case(line) {
        show::text(b"unknown case");
    }
    show::text(b"\n");
}

// Reads the next line and answers it. Answers whether there was one.
fn answer_next() -> bool {
    let mut line = [0u8; LINE_BYTES];
    let n = read_line(&mut line);
    if n == 0 {
        return false;
    }
    let last = n - 1;
    answer(&line[0..last]);
    true
}

// Answers each line of the input. A proved loop has to end, so it counts to more lines than any input has.
fn main() {
    for _ in 0..u64::MAX {
        if !answer_next() {
            return;
        }
    }
}
