// Plain folds, unpurged: the baseline that shows how much leaks without purging.
// Source: `naive_kfold_splits` of cross_validation.rs (01, "Refusal numbers": the naive splitter). Changed against it:
// - one split a call, as marks in a lent list: 1 for the rows of the fold, 0 for all others;
// - the counts are given beside them.
#![tactic(auto)]

ghost use Rattle.std.specs.Prelude.{◌≡◌, ◌≤◌, length};
ghost use Rattle.lists.specs.Base.{tab, bit};
ghost use Rattle.paper.specs.Folds.{within};
ghost use Rattle.paper.specs.Marks.{counts_of};
ghost use Rattle.paper.specs.Overlaps.{naive_marks};
ghost use Rattle.naive.specs.NaiveIn.{NaiveIn};

use folds::RowRange;
use paper::{Counts, FoldNumber};

// Writes 1 for a row of the fold, 0 for any other.
fn write_marks(rows: RowRange, marks: &mut [u8])
    ensures { marks.new ≡ tab (λ i. bit (within rows.first rows.past i)) (length marks.old) }
{
    for (i, m) in marks.iter_mut().enumerate() {
        *m = u8::from(rows.contains(i));
    }
}

// Marks the fold, and counts.
fn mark_range(rows: RowRange, marks: &mut [u8]) -> Counts
    requires { (rows.first ≤ rows.past) × (rows.past ≤ length marks.old) }
    ensures counts { result ≡ counts_of (tab (λ i. bit (within rows.first rows.past i)) (length marks.old)) }
    ensures lent { marks.new ≡ tab (λ i. bit (within rows.first rows.past i)) (length marks.old) }
{
    write_marks(rows, marks);
    let test = rows.past - rows.first;
    Counts {
        train: marks.len() - test,
        test,
        purged: 0,
        embargoed: 0,
    }
}

// Marks fold s of N plain folds of n rows.
pub fn mark_plain_fold(n: usize, folds: usize, fold: FoldNumber, marks: &mut [u8]) -> Counts
    requires { NaiveIn n folds fold.0 (length marks.old) }
    ensures counts { result ≡ counts_of (naive_marks n folds fold.0) }
    ensures lent { marks.new ≡ naive_marks n folds fold.0 }
{
    let rows = folds::contiguous_fold_bounds(n, folds, fold).unwrap();
    mark_range(rows, marks)
}
