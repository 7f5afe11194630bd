// Plain folds by number (01, "Refusal numbers": the naive splitter).
// Source: `naive_kfold_splits` of cross_validation.rs. Changed against it:
// - one split a call, as marks in a lent list;
// - a lent list of another length gets 5, and a split that there is none of 13.
ghost use Rattle.std.specs.Prelude.{◌≡◌, length};
ghost use Rattle.paper.specs.Answers.{said};
ghost use Rattle.paper.specs.Checks.{checked, lent, naive_checks};
ghost use Rattle.paper.specs.Overlaps.{naive_marks};
ghost use Rattle.paper.specs.RowCalls.{naive_call};
ghost use Rattle.checks.specs.Said.{said_checked};

use checks::numbers;
use paper::{Counts, FoldNumber, Refusal, SplitNumber};
use row_checks::groups;

// 2, 5, 13.
fn check(n: usize, folds: usize, s: u64, room: usize) -> Result<(), Refusal>
    ensures { said_checked result ≡ checked (naive_checks n folds s room) tt }
{
    groups::folds(folds, n)?;
    numbers::list_length(room, n)?;
    numbers::below(folds as u64, s)
}

// Marks a split of plain folds: 1 for the rows of its fold, 0 for all others.
pub fn naive_kfold(
    n: usize,
    folds: usize,
    split: SplitNumber,
    marks: &mut [u8],
) -> Result<Counts, Refusal>
    ensures answer { said result ≡ naive_call n folds split.0 (length marks.old) }
    ensures list { marks.new ≡ lent (naive_call n folds split.0 (length marks.old)) marks.old (naive_marks n folds split.0) }
{
    check(n, folds, split.0, marks.len())?;
    let fold = FoldNumber(split.0 as usize);
    Ok(naive::mark_plain_fold(n, folds, fold, marks))
}
