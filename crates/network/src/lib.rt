// Networks of arcs with convex costs: how a slice of 32-bit numbers holds their arcs and flows, and which a solver takes.
// Between `usize` and the stored types a number goes by `as`: there is no `From`, and `try_from` would test what is proved.
#![tactic(auto)]

mod form;
pub mod inside;
pub mod layout;
pub mod limits;
pub mod nodes;

ghost use Rattle.std.specs.Prelude.{◌≡◌, length, replicate};
ghost use Rattle.network.specs.Tested.{Tested};
ghost use Rattle.network.specs.Net.{net};
ghost use Rattle.network.specs.WellFormed.{WellFormed};

use crate::form::arcs_ok;
use crate::layout::STRIDE;
use crate::limits::{MAX_ARCS, MAX_NODES};

// Why a solver leaves no solution: there is none, or the input is not taken.
#[derive(Clone, Copy, PartialEq, Eq)]
pub enum Unsolved {
    NoSolution,
    Malformed,
}

// Whether the first arcs, so many, are packed arcs between so many nodes, of which the last is ground.
pub fn well_formed(arcs: &[u32], count: usize, nodes: usize) -> bool
    ensures { Tested (WellFormed (net arcs.now count) nodes) result }
{
    0 < nodes
        && nodes <= MAX_NODES
        && count <= MAX_ARCS
        && STRIDE * count <= arcs.len()
        && arcs_ok(arcs, count, nodes)
}

// Every number is 0.
pub fn clear(numbers: &mut [u32])
    ensures { numbers.new ≡ replicate (length numbers.old) 0 }
{
    numbers.fill(0);
}
