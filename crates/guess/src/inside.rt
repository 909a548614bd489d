// A guess has no contract, so it is no public call: `leftmost` tests what it leaves.
pub use crate::primal_dual::guess;
