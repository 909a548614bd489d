// A text is delivered whole, if the lent slice is long enough.
ghost use Rattle.std.specs.Prelude.{◌≡◌, length};
ghost use Rattle.leb128.specs.Format.{outcome, answered, filled};
ghost use Rattle.leb128.specs.Format.Result.{elements};

use leb128::Refusal;
use leb128::refusals::SLICE_SHORT;

// Writes a whole text into the front of the lent slice.
#[tactic(auto, unfolding(leb128::specs::Format::outcome, leb128::specs::Format::answered, leb128::specs::Format::filled))]
pub fn deliver(whole: &[u8], text: &mut [u8]) -> Result<usize, Refusal>
    ensures answer { outcome result ≡ answered (length text.old) (elements whole.now) }
    ensures slice { text.new ≡ filled (elements whole.now) text.old }
{
    if text.len() < whole.len() {
        return Err(Refusal::new(SLICE_SHORT, 0));
    }
    text[..whole.len()].copy_from_slice(whole);
    Ok(whole.len())
}
