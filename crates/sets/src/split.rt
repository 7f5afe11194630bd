// Is a fold set a split? (01, "Combinations and paths" and refusal 13.) New against the Rust, which is handed no sets.
ghost use Rattle.std.specs.Prelude.{◌≡◌};
ghost use Rattle.paper.specs.Sets.{ascends, all_below, is_split};
ghost use Rattle.paper.specs.Handed.{list_of, numbers};

use paper::{FoldNumber, FoldSet};

// Does every fold exceed the one before it?
fn ascends(folds: &[FoldNumber]) -> bool
    ensures { result ≡ ascends (numbers folds.now) }
{
    folds.is_sorted_by(|a, b| a.0 < b.0)
}

// Is every fold below n?
fn all_below(n: usize, folds: &[FoldNumber]) -> bool
    ensures { result ≡ all_below n (numbers folds.now) }
{
    folds.iter().all(|fold| fold.0 < n)
}

// A count above 64 stands for 64: there are no more places.
pub fn is_split(n: usize, k: usize, set: FoldSet) -> bool
    ensures { result ≡ is_split n k (list_of set) }
{
    let folds = set.as_slice();
    ascends(folds) && all_below(n, folds) && folds.len() == k
}
