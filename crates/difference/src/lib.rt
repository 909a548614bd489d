// The least solution of difference constraints, read off the hard sides of packed arcs: every value starts at 0 and is
// raised only if an arc forces it.
// Between `usize` and the stored types a number goes by `as`: there is no `From`, and `try_from` would test what is proved.
#![tactic(auto)]

mod limits;
mod raise;
mod sweep;

ghost use Rattle.network.specs.Net.{net};
ghost use Rattle.difference.specs.Solutions.{finding, Means};

use crate::sweep::run;
use network::{Unsolved, well_formed};

// No solution exists: a constraint asks for what no value meets.
#[derive(Clone, Copy)]
struct Stuck;

// The least solution, in the first values; the ground's is 0. NoSolution is an answer and no refusal: the first values are
// then 0. Malformed is the refusal, and leaves every value as it was.
pub fn least(arcs: &[u32], count: usize, nodes: usize, values: &mut [u32]) -> Result<(), Unsolved>
    ensures { Means (net arcs.now count) nodes values.old values.new (finding result) }
{
    if nodes > values.len() || !well_formed(arcs, count, nodes) {
        return Err(Unsolved::Malformed);
    }
    run(arcs, count, &mut values[..nodes]).map_err(|_| Unsolved::NoSolution)
}
