// Numbers in bytes and in lists: the reader and the writer of one number, and what a format of numbers answers.
#![tactic(auto)]

ghost use Rattle.std.specs.Prelude.{◌≡◌, Some};
ghost use Rattle.leb128.specs.Source.{refusal, shown};

use std::fmt;

pub mod limits;
mod reader;
pub mod refusals;
mod writer;

pub use reader::{list_number, read_number};
pub use writer::{number_size, write_number};

// A refusal of document 01: its number and its offset. The number is a `u8` and not an enum: each crate has constants for the
// refusals that it gives, and `report::refusal_text` takes every number.
#[derive(Clone, Copy, PartialEq, Eq)]
pub struct Refusal {
    pub number: u8,
    pub offset: usize,
}

impl Refusal {
    // The refusal of this number at this offset.
    pub fn new(number: u8, offset: usize) -> Refusal
        ensures { result ≡ refusal number offset }
    {
        Refusal { number, offset }
    }
}

// A refusal is printed as its number and its offset.
impl fmt::Display for Refusal {
    ghost output = { λ r. Some (shown r) };

    fn fmt<W: fmt::Write>(&self, f: &mut fmt::Formatter<W>) -> fmt::Result {
        let number = self.number;
        let offset = self.offset;
        write!(f, "refused {number} at {offset}")
    }
}

// Why a number is not written: it has no form of so many bytes, or the slice has no room for it.
#[derive(Clone, Copy, PartialEq, Eq)]
pub enum Unplaced {
    NoForm,
    NoRoom,
}
