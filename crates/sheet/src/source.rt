// The number at a cursor, tested against its range and counted.
ghost use Rattle.std.specs.Prelude.{◌≡◌, ◌<◌};
ghost use Rattle.leb128.specs.Limits.{list_limit};
ghost use Rattle.leb128.specs.Grammar.{Form};
ghost use Rattle.leb128.specs.Source.{item, «in_bytes»};
ghost use Rattle.sheet.specs.inside.Cursor.{encoded, source, excess_weight, Counted, Roomy, Sound, Ranged, Limited};

use crate::{Cursor, Input, Range, Step};
use leb128::refusals::OUTSIDE_LIMITS;
use leb128::{Refusal, list_number, number_size, read_number};

// The number at a position of the bytes, which hold what it lies above a base.
pub fn number_above(bytes: &[u8], at: usize, base: u32) -> Result<(u32, usize), Refusal>
    requires { base < list_limit }
    ensures { item result ≡ in_bytes bytes.now (Form.above base) at }
{
    let (n, after) = read_number(bytes, at)?;
    Ok((base + n, after))
}

// The number at a position of an input, which is so short that what its numbers take is counted on 64 bits.
fn number(input: Input, at: usize, base: u32) -> Result<(u32, usize), Refusal>
    requires { base < list_limit }
    ensures item { item result ≡ source input.entry (Form.above base) at }
    ensures room { Roomy input.entry }
{
    match input {
        Input::Bytes(bytes) => number_above(bytes, at, base),
        Input::Numbers(numbers) => list_number(numbers, at),
    }
}

// How many elements a number takes where it is written, by what it lies above its base: one of a list, or its bytes.
fn weight(input: Input, excess: u32) -> usize
    ensures { result ≡ excess_weight (encoded input.entry) excess }
{
    match input {
        Input::Bytes(_) => 1,
        Input::Numbers(_) => number_size(excess),
    }
}

// The number at a cursor, tested against its range.
pub fn ranged(input: Input, c: Cursor, range: Range) -> Step
    requires counted { Counted input c }
    requires sound { Sound range }
    ensures { Ranged input.entry c range result }
{
    let (n, at) = number(input, c.at, range.base)?;
    if n < range.low || range.high < n {
        return Err(Refusal::new(OUTSIDE_LIMITS, c.at));
    }
    let count = c.count + weight(input, n - range.base);
    Ok((n, Cursor { at, count }))
}

// The plain number at a cursor, tested against its limits.
pub fn limited(input: Input, c: Cursor, low: u32, high: u32) -> Step
    requires { Counted input c }
    ensures { Limited input.entry c low high result }
{
    ranged(input, c, Range { base: 0, low, high })
}
