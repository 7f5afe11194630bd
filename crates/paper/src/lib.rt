// The value types of document 01: what a caller hands in beside the lent lists, and what comes back.
// What they mean, and what each call answers, stands in specs/.
#![tactic(auto)]

pub mod answers;
pub mod numbers;
pub mod refusal;
pub mod rule;
pub mod settings;
pub mod span;

pub use answers::{Counts, OverlapCount};
pub use numbers::{FoldNumber, FoldSet, PathNumber, SplitNumber};
pub use refusal::Refusal;
pub use rule::Rule;
pub use settings::{Rolling, Settings};
pub use span::Span;
