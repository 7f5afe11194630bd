// The public calls that mark a split: k-fold and combinations by either rule, walk-forward, and the rolling layout.
#![tactic(auto)]

pub mod cross;
pub mod forward;
pub mod outcome;

pub use cross::{cpcv, kfold};
pub use forward::{rolling, walk_forward};
