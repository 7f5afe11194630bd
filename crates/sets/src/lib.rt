// Splits and paths by number, with nothing listed (01, "Combinations and paths").
// What they are proved against is the plain listing of crate paper.
#![tactic(auto)]

pub mod binomial;
pub mod choice;
pub mod next;
pub mod numbering;
pub mod paths;
pub mod split;
pub mod triangle;

pub use binomial::n_choose_k;
pub use choice::{Choice, Split};
pub use split::is_split;
