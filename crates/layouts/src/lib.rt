// The marks of each layout: k-fold, combinations, walk-forward and rolling, over even folds.
// Source: the layouts of `split`, `cpcv_splits` and `walk_forward_splits` of cross_validation.rs and of `run_walk_forward` of
// backtesting_engine.rs (01, "Purge, embargo, marks"). Changed against them:
// - one split a call, where the Rust makes the list of all;
// - walk-forward and rolling mark the rows behind the test rows as unused, where the Rust leaves them out of its lists;
// - the embargo of the rolling layout is not worked out: it can reach no training row.
#![tactic(auto)]

ghost use Rattle.std.specs.Prelude.{◌≡◌, ◌+◌, ◌≤◌, ◌<◌, length};
ghost use Rattle.paper.specs.Folds.{even_border, even_borders};
ghost use Rattle.paper.specs.Marks.{by_window, by_pair, marks_of};
ghost use Rattle.paper.specs.Layouts.{forward, kfold};
ghost use Rattle.spans.specs.Tables.{table_of, rows_in};
ghost use Rattle.paper.specs.Rules.{rule_of};
ghost use Rattle.blocks.specs.Held.{firsts, pasts};
ghost use Rattle.marks.specs.Accepted.{Written};
ghost use Rattle.layouts.specs.Tested.{one_range, forward_fold, cross_set, FoldIn, SetIn, RangesOf};

use blocks::NO_ROWS;
use folds::{RowRange, contiguous_fold_bounds};
use marks::mark_ranges;
use paper::{Counts, FoldNumber, FoldSet, Rule};
use rows::Terms;
use scans::Sound;

// ---- one range

// The marks of the split that tests some rows.
fn mark_range(terms: Terms, sound: &Sound, rows: RowRange, marks: &mut [u8]) -> Counts
    requires fits { length marks.old ≡ rows_in sound.now.table }
    requires rows_in_bounds { (rows.first < rows.past) × (rows.past ≤ rows_in sound.now.table) }
    ensures { Written (marks_of (rule_of terms.rule) (table_of sound.now.table) (one_range rows.first rows.past terms.used terms.width)) marks.new result }
{
    mark_ranges(terms, sound, &[rows], marks)
}

// k-fold: a fold is tested.
pub fn mark_fold(
    rule: Rule,
    sound: &Sound,
    folds: usize,
    fold: FoldNumber,
    width: usize,
    marks: &mut [u8],
) -> Counts
    requires fits { length marks.old ≡ rows_in sound.now.table }
    requires fold_in { FoldIn (rows_in sound.now.table) folds fold.0 }
    ensures { Written (marks_of (rule_of rule) (table_of sound.now.table) (kfold (even_borders (rows_in sound.now.table) folds) fold.0 width)) marks.new result }
{
    let used = sound.table.len();
    let rows = fold_rows(used, folds, fold);
    mark_range(Terms { rule, used, width }, sound, rows, marks)
}

// Walk-forward: a fold is tested, and only rows before it can train.
pub fn mark_walk_forward(sound: &Sound, folds: usize, fold: FoldNumber, marks: &mut [u8]) -> Counts
    requires fits { length marks.old ≡ rows_in sound.now.table }
    requires fold_in { FoldIn (rows_in sound.now.table) folds fold.0 }
    ensures { Written (marks_of by_window (table_of sound.now.table) (forward_fold (rows_in sound.now.table) folds fold.0)) marks.new result }
{
    let rows = fold_rows(sound.table.len(), folds, fold);
    let terms = Terms {
        rule: Rule::Window,
        used: rows.past,
        width: 0,
    };
    mark_range(terms, sound, rows, marks)
}

// Rolling: up to `size` rows from b on are tested, cut at the last row, and only rows before them can train.
pub fn mark_rolling(sound: &Sound, b: usize, size: usize, marks: &mut [u8]) -> Counts
    requires fits { length marks.old ≡ rows_in sound.now.table }
    requires b_in_bounds { (b < rows_in sound.now.table) × (0 < size) }
    ensures { Written (marks_of by_pair (table_of sound.now.table) (forward b (b + size))) marks.new result }
{
    let past = b + size.min(sound.table.len() - b);
    let terms = Terms {
        rule: Rule::Pair,
        used: past,
        width: 0,
    };
    mark_range(terms, sound, RowRange { first: b, past }, marks)
}

// ---- folds

// The rows of a fold.
fn fold_rows(n: usize, folds: usize, fold: FoldNumber) -> RowRange
    requires { fold.0 < folds }
    ensures { result ≡ record { first = even_border n folds fold.0; past = even_border n folds (fold.0 + 1) } }
{
    contiguous_fold_bounds(n, folds, fold).unwrap()
}

// The rows of each fold of a set, laid down from the start of a buffer.
fn fold_ranges<'a>(
    n: usize,
    folds: usize,
    set: FoldSet,
    buffer: &'a mut [RowRange; 64],
) -> &'a [RowRange]
    requires { SetIn n folds set }
    ensures many { length result.now ≡ set.count }
    ensures ranges { RangesOf n folds set (firsts result.now) (pasts result.now) set.count }
{
    for (j, fold) in set.folds[..set.count].iter().enumerate() {
        buffer[j] = fold_rows(n, folds, *fold);
    }
    &buffer[..set.count]
}

// Combinations: the folds of a set are tested.
pub fn mark_folds(
    rule: Rule,
    sound: &Sound,
    folds: usize,
    set: FoldSet,
    width: usize,
    marks: &mut [u8],
) -> Counts
    requires fits { length marks.old ≡ rows_in sound.now.table }
    requires set_in { SetIn (rows_in sound.now.table) folds set }
    ensures { Written (marks_of (rule_of rule) (table_of sound.now.table) (cross_set (rows_in sound.now.table) folds set width)) marks.new result }
{
    let mut buffer = [NO_ROWS; 64];
    let used = sound.table.len();
    let ranges = fold_ranges(used, folds, set, &mut buffer);
    mark_ranges(Terms { rule, used, width }, sound, ranges, marks)
}
