// Answers and slices as text on the standard output.
use engine::Narrowest;
use leb128::{Refusal, Unplaced};
use std::fmt;
use std::fmt::Write;

// The standard output.
const STANDARD_OUTPUT: i32 = 1;

// Prints a text.
pub fn text(text: &[u8]) {
    io::write_all(STANDARD_OUTPUT, text);
}

// The standard output, for what is printed by `write!`.
#[derive(Drop)]
struct Output;

impl fmt::Write for Output {
    fn write_str(&mut self, s: &str) -> fmt::Result {
        text(s.as_bytes());
        Ok(())
    }
}

// Prints the answer of a reader or a writer.
pub fn answer(answer: Result<usize, Refusal>) {
    let _ = match answer {
        Ok(count) => write!(Output, "done {count}:"),
        Err(refusal) => write!(Output, "{refusal}:"),
    };
}

// Prints the answer of the number reader.
pub fn found(found: Result<(u32, usize), Refusal>) {
    let _ = match found {
        Ok((n, next)) => write!(Output, "value {n} next {next}"),
        Err(refusal) => write!(Output, "{refusal}"),
    };
}

// Prints the answer of the number writer.
pub fn placed(placed: Result<usize, Unplaced>) {
    let _ = match placed {
        Ok(next) => write!(Output, "next {next}:"),
        Err(Unplaced::NoForm) => write!(Output, "no form:"),
        Err(Unplaced::NoRoom) => write!(Output, "no room:"),
    };
}

// Prints the answer of the checker.
pub fn verdict(verdict: Result<bool, Refusal>) {
    let _ = match verdict {
        Ok(true) => write!(Output, "yes"),
        Ok(false) => write!(Output, "no"),
        Err(refusal) => write!(Output, "{refusal}"),
    };
}

// Prints the answer of the engine.
pub fn drawing(drawing: Result<u32, Refusal>) {
    let _ = match drawing {
        Ok(total) => write!(Output, "total {total}:"),
        Err(refusal) => write!(Output, "{refusal}:"),
    };
}

// Prints the minimum width, and the total at it.
pub fn minimum(minimum: Result<Narrowest, Refusal>) {
    let _ = match minimum {
        Ok(Narrowest { width, total }) => write!(Output, "narrowest {width} {total}"),
        Err(refusal) => write!(Output, "{refusal}"),
    };
}

// A number that a list of them is printed with.
pub trait Show {
    // Prints the number.
    fn show(self);
}

// Two hex digits.
impl Show for u8 {
    fn show(self) {
        io::print_hex(STANDARD_OUTPUT, u64::from(self), 2);
    }
}

// Four hex digits.
impl Show for u16 {
    fn show(self) {
        io::print_hex(STANDARD_OUTPUT, u64::from(self), 4);
    }
}

// Eight hex digits.
impl Show for u32 {
    fn show(self) {
        io::print_hex(STANDARD_OUTPUT, u64::from(self), 8);
    }
}

// Decimal digits, behind the sign of a number below 0.
impl Show for i32 {
    fn show(self) {
        if self < 0 {
            text(b"-");
        }
        io::print_decimal(STANDARD_OUTPUT, u64::from(self.unsigned_abs()));
    }
}

// Prints the numbers of a list, each behind a space.
pub fn list<T: Show + Copy>(list: &[T]) {
    for x in list {
        text(b" ");
        (*x).show();
    }
}
