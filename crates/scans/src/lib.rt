// One look at each row of a lent table: the first span that ends before its start, and whether starts ever decrease.
// Source: the test of `samples_info_sets` in `PurgedKFold::new` of cross_validation.rs (01, "Refusal numbers", 4).
// Changed against it:
// - the answer is the row, or `None` where there is no such span;
// - the test of the starts is new: where they never decrease, the pair rule's marks are the window rule's.
#![tactic(auto)]

ghost use Rattle.std.specs.Prelude.{◌≡◌};
ghost use Rattle.scans.specs.Falls.{starts_fall};
ghost use Rattle.scans.specs.FirstBackward.{backward_found};

pub mod sound;

pub use sound::Sound;
use spans::Table;

// The first row whose span ends before its start.
pub fn first_backward(table: &Table) -> Option<usize>
    ensures { result ≡ backward_found table.now.starts.now table.now.ends.now }
{
    table
        .starts
        .iter()
        .zip(table.ends)
        .position(|(start, end)| end < start)
}

// Does some row start earlier than the row before it?
pub fn starts_fall(starts: &[i64]) -> bool
    ensures { result ≡ starts_fall starts.now }
{
    !starts.is_sorted_by(|a, b| a <= b)
}
