// Answers as words.
ghost use Rattle.std.specs.Prelude.{◌≡◌, ◌<◌};
ghost use Rattle.strip.specs.Words.{number_unit, packed, alone, yes_no, total_width};
ghost use Rattle.strip.specs.HeldWords.{told_of, answer_word, HeldAnswer};

use crate::Told;
use engine::Narrowest;
use leb128::Refusal;

// What one more in the refusal's number adds: 2³².
const NUMBER_UNIT: u64 = 4294967296;

// What one more in the second value adds: 2⁴⁸.
const SECOND_UNIT: u64 = 281474976710656;

// A result that is one number.
pub fn alone(value: usize) -> Told
    ensures { told_of result ≡ alone value }
{
    Told { second: 0, value }
}

// A total.
pub fn total(total: u32) -> Told
    ensures { told_of result ≡ alone total }
{
    alone(total as usize)
}

// The checker's yes or no.
pub fn yes_no(yes: bool) -> Told
    ensures { told_of result ≡ yes_no yes }
{
    alone(usize::from(yes))
}

// The total at the minimum width, and the width as the second value.
pub fn total_width(n: Narrowest) -> Told
    ensures { told_of result ≡ total_width n }
{
    Told {
        second: n.width,
        value: n.total as usize,
    }
}

// An answer in one word: what is told of its result, or the refusal.
pub fn answer_word(answer: Result<Told, Refusal>) -> u64
    requires { HeldAnswer answer }
    ensures { result ≡ answer_word answer }
{
    match answer {
        Ok(told) => u64::from(told.second) * SECOND_UNIT + word(0, told.value),
        Err(r) => word(r.number, r.offset),
    }
}

// A refusal's number, 0 where nothing is refused, and a value or an offset.
fn word(number: u8, value: usize) -> u64
    requires { value < number_unit }
    ensures { result ≡ packed 0 number value }
{
    u64::from(number) * NUMBER_UNIT + value as u64
}
