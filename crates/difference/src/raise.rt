// One constraint, and one arc: values are raised as far as they ask.
ghost use Rattle.std.specs.Prelude.{◌<◌};
ghost use Rattle.network.specs.Net.{net};
ghost use Rattle.difference.specs.inside.Constraints.{Met, Ready, Relaxing};
ghost use Rattle.difference.specs.inside.Steps.{RelaxMeans, Stepped};

use crate::Stuck;
use crate::limits::VALUE_LIMIT;
use network::inside::part_of;
use network::layout::{HEAD, HIGH, HIGH_NONE, KINK, KINK_ZERO, LOW, LOW_NONE, TAIL};

// One constraint, value(from) + a <= value(to) + b, if it is asked: raises `to` as far as it asks, and answers whether it rose.
// The ground is never raised, and nothing above the limit.
fn relax(
    asked: bool,
    values: &mut [u32],
    from: usize,
    to: usize,
    a: usize,
    b: usize,
) -> Result<bool, Stuck>
    requires { Relaxing values.old from to a b }
    ensures { RelaxMeans asked from to a b values.old values.new result }
{
    if !asked {
        return Ok(false);
    }
    let sum = values[from] as usize + a;
    if sum <= values[to] as usize + b {
        return Ok(false);
    }
    if to + 1 == values.len() || VALUE_LIMIT + b < sum {
        return Err(Stuck);
    }
    values[to] = (sum - b) as u32;
    Ok(true)
}

// Both constraints of arc i, and whether a value rose; the first ends it if it is stuck. With an unlimited high the head is at most
// the kink right of the tail, with an unlimited low at least.
pub fn raise_arc(arcs: &[u32], count: usize, i: usize, values: &mut [u32]) -> Result<bool, Stuck>
    requires ready { Ready (net arcs.now count) values.old }
    requires i_lt_count { i < count }
    ensures { Stepped (Met (net arcs.now count) i) (net arcs.now count) values.old values.new result }
{
    let t = part_of(arcs, i, TAIL);
    let h = part_of(arcs, i, HEAD);
    let k = part_of(arcs, i, KINK);
    let hard_high = part_of(arcs, i, HIGH) == HIGH_NONE as usize;
    let first = relax(hard_high, values, h, t, KINK_ZERO, k)?;
    let hard_low = part_of(arcs, i, LOW) == LOW_NONE as usize;
    let second = relax(hard_low, values, t, h, k, KINK_ZERO)?;
    Ok(first | second)
}
