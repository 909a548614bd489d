// The number readers: what stands at a position of bytes, and of a number list.
ghost use Rattle.std.specs.Prelude.{◌≡◌};
ghost use Rattle.leb128.specs.Source.{item, byte_item, list_item};

use crate::Refusal;
use crate::limits::NUMBER_BYTES;
use crate::refusals::{INPUT_ENDED, NUMBER_FORM};

// The number at a position of the bytes: groups of seven bits, low group first, in at most NUMBER_BYTES bytes.
pub fn read_number(bytes: &[u8], at: usize) -> Result<(u32, usize), Refusal>
    ensures { item result ≡ byte_item bytes.now at }
{
    let mut value: u32 = 0;
    let mut weight: u32 = 1;
    for i in 0..NUMBER_BYTES {
        let next = at + i;
        if bytes.len() <= next {
            return Err(Refusal::new(INPUT_ENDED, bytes.len()));
        }
        let group = u32::from(bytes[next]);
        if group < 128 {
            if group == 0 && 0 < i {
                return Err(Refusal::new(NUMBER_FORM, at));
            }
            return Ok((value + weight * group, next + 1));
        }
        value += weight * (group - 128);
        weight *= 128;
    }
    Err(Refusal::new(NUMBER_FORM, at))
}

// The number at a position of the list.
#[tactic(auto, unfolding(crate::specs::Source::list_item))]
pub fn list_number(numbers: &[u16], at: usize) -> Result<(u32, usize), Refusal>
    ensures { item result ≡ list_item numbers.now at }
{
    match numbers.get(at) {
        Some(n) => Ok((u32::from(*n), at + 1)),
        None => Err(Refusal::new(INPUT_ENDED, numbers.len())),
    }
}
