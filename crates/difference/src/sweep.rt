// Passes over all arcs until nothing changes.
ghost use Rattle.std.specs.Prelude.{length};
ghost use Rattle.network.specs.Net.{net};
ghost use Rattle.network.specs.WellFormed.{WellFormed};
ghost use Rattle.difference.specs.inside.Constraints.{AllMet, Ready};
ghost use Rattle.difference.specs.inside.Steps.{Stepped, Swept, Ran};

use crate::Stuck;
use crate::raise::raise_arc;
use network::clear;

// One pass over the arcs, back from the last or on from the first, and whether a value rose; an arc that is stuck ends it.
fn along<const BACK: bool>(arcs: &[u32], count: usize, values: &mut [u32]) -> Result<bool, Stuck>
    requires { Ready (net arcs.now count) values.old }
    ensures { Stepped (AllMet (net arcs.now count)) (net arcs.now count) values.old values.new result }
{
    let mut rose = false;
    for k in 0..count {
        let i = if BACK { count - 1 - k } else { k };
        rose |= raise_arc(arcs, count, i, values)?;
    }
    Ok(rose)
}

// The same, in the direction asked.
fn pass(arcs: &[u32], count: usize, back: bool, values: &mut [u32]) -> Result<bool, Stuck>
    requires { Ready (net arcs.now count) values.old }
    ensures { Stepped (AllMet (net arcs.now count)) (net arcs.now count) values.old values.new result }
{
    if back {
        along::<true>(arcs, count, values)
    } else {
        along::<false>(arcs, count, values)
    }
}

// The least solution in values, and whether there is one; if there is none every value is 0.
pub fn run(arcs: &[u32], count: usize, values: &mut [u32]) -> Result<(), Stuck>
    requires { WellFormed (net arcs.now count) (length values.old) }
    ensures { Ran (net arcs.now count) (length values.old) values.new result }
{
    let swept = sweep(arcs, count, values);
    if swept.is_err() {
        clear(values);
    }
    swept
}

// Passes in alternating directions, at most as many as there are nodes with ground; whether a solution exists.
fn sweep(arcs: &[u32], count: usize, values: &mut [u32]) -> Result<(), Stuck>
    requires { WellFormed (net arcs.now count) (length values.old) }
    ensures { Swept (net arcs.now count) (length values.old) values.new result }
{
    clear(values);
    for k in 0..values.len() {
        if !pass(arcs, count, k % 2 == 1, values)? {
            return Ok(());
        }
    }
    Err(Stuck)
}
