// The walk along a coordinate file: a loop over which number comes next.
ghost use Rattle.std.specs.Prelude.{◌≡◌};
ghost use Rattle.sheet.specs.Coordinates as grammar;
ghost use Rattle.sheet.specs.inside.Cursor.{Counted, «walk_from», walked};

use crate::source::ranged;
use crate::{Awaited, Cursor, Input};
use leb128::Refusal;

// The grammar of a coordinate file, from a cursor to the end that it finds or to the first refusal.
pub fn walk(input: Input, start: Cursor) -> Result<Cursor, Refusal>
    requires { Counted input start }
    ensures { walked result ≡ walk_from input.entry start grammar.coordinates }
{
    let mut c = start;
    let mut s = Awaited::Layers;
    // A while: the state says whether a number comes next.
    while s.more() {
        let (n, next) = ranged(input, c, s.range())?;
        c = next;
        s = s.following(n);
    }
    Ok(c)
}
