// Even folds: the rows of a fold, and the fold of a row.
// Source: `contiguous_fold_bounds` of cross_validation.rs and `contiguous_folds` of backtesting_engine.rs (01, "Rows, times,
// settings"). Changed against them:
// - one fold a call, by a product and a remainder, where the Rust makes the list of all;
// - a fold or row that there is none of gets `None`, where the Rust's callers check first;
// - `fold_of_row` is new: the Rust looks a row up in the lists of indices.
#![tactic(auto)]

ghost use Rattle.std.specs.Prelude.{◌≡◌, ◌≤◌, ◌<◌};
ghost use Rattle.paper.specs.Folds.{within, even_border};
ghost use Rattle.folds.specs.Found.{bounds_of, fold_found};

use paper::FoldNumber;

// Rows one after another: the first, and the one past the last.
#[derive(Clone, Copy)]
pub struct RowRange {
    pub first: usize,
    pub past: usize,
}

impl RowRange {
    // Is the row one of them?
    pub fn contains(self, row: usize) -> bool
        ensures { result ≡ within self.first self.past row }
    {
        self.first <= row && row < self.past
    }
}

// Where fold f of n rows in N even folds begins.
fn fold_start(n: usize, folds: usize, f: usize) -> usize
    requires { (0 < folds) × (f ≤ folds) }
    ensures { result ≡ even_border n folds f }
{
    f * (n / folds) + f.min(n % folds)
}

// The rows of one of n rows' even folds, worked out without a walk over the folds before it.
pub fn contiguous_fold_bounds(n: usize, folds: usize, fold: FoldNumber) -> Option<RowRange>
    ensures { result ≡ bounds_of n folds fold.0 }
{
    let f = fold.0;
    if f < folds {
        Some(RowRange {
            first: fold_start(n, folds, f),
            past: fold_start(n, folds, f + 1),
        })
    } else {
        None
    }
}

// The fold of a row: the first whose end is past it.
pub fn fold_of_row(n: usize, folds: usize, row: usize) -> Option<FoldNumber>
    ensures { result ≡ fold_found n folds row }
{
    if n <= row {
        return None;
    }
    (0..folds)
        .find(|f| row < fold_start(n, folds, *f + 1))
        .map(FoldNumber)
}
