// The chains of the calls, put together of the groups: all but 17, which stands behind the marking. Each hands back the table
// that it has made sure of.
ghost use Rattle.std.specs.Prelude.{◌≡◌, [], ◌∷◌, ◌++◌, ◌+◌, ◌-◌, ◌*◌, ◌<◌, ◌≤◌, leb, length, IfOk};
ghost use Rattle.paper.specs.Sets.{choose};
ghost use Rattle.paper.specs.Checks.{checked, lengths_differ, no_rows, too_many_rows, bad_span, wrong_length, zero_size, nothing_to_test, no_such, table_checks, combination_checks, walk_forward_checks};
ghost use Rattle.laws.specs.Windows.{Good};
ghost use Rattle.spans.specs.Tables.{table_of, Holds};
ghost use Rattle.checks.specs.Said.{said_checked};
ghost use Rattle.row_checks.specs.RowsAlone.{rows_alone};

use crate::groups;
use checks::{numbers, refuse_if};
use paper::{Refusal, Rolling, Settings};
use scans::Sound;
use sets::Choice;
use spans::Table;

// 12, 1, 10: what every table is asked first.
fn size<'a>(starts: &'a [i64], ends: &'a [i64]) -> Result<Table<'a>, Refusal>
    ensures answer { said_checked result ≡ checked (lengths_differ starts.now ends.now ∷ no_rows (length starts.now) ∷ too_many_rows (length starts.now) ∷ []) tt }
    ensures passed { IfOk result (λ t. Holds t starts.now ends.now × (length starts.now ≤ 1048576)) }
{
    let table = groups::lengths(starts, ends)?;
    groups::rows(table.len())?;
    Ok(table)
}

// 4 and 5: the spans, and the lent list.
fn spans_and_room(table: &Table, room: usize) -> Result<(), Refusal>
    ensures answer { said_checked result ≡ checked (bad_span (table_of table.now) ∷ wrong_length room (length table.now.starts.now) ∷ []) tt }
    ensures passed { IfOk result (λ _. Good (table_of table.now)) }
{
    groups::spans(table)?;
    numbers::list_length(room, table.len())
}

// 12, 1, 10, 2, 3, 4, 5: what every call on folds of rows is asked.
pub fn folds_of_rows<'a>(
    starts: &'a [i64],
    ends: &'a [i64],
    settings: Settings,
    room: usize,
) -> Result<Sound<'a>, Refusal>
    ensures answer { said_checked result ≡ checked (table_checks starts.now ends.now settings room) tt }
    ensures passed { IfOk result (λ t. Holds t.table starts.now ends.now) }
{
    let table = size(starts, ends)?;
    groups::folds(settings.folds, table.len())?;
    groups::fraction(settings.embargo)?;
    spans_and_room(&table, room)?;
    Ok(Sound { table })
}

// k-fold: .. 13.
pub fn kfold<'a>(
    starts: &'a [i64],
    ends: &'a [i64],
    settings: Settings,
    s: u64,
    room: usize,
) -> Result<Sound<'a>, Refusal>
    ensures answer { said_checked result ≡ checked (table_checks starts.now ends.now settings room ++ no_such settings.folds s ∷ []) tt }
    ensures passed { IfOk result (λ t. Holds t.table starts.now ends.now) }
{
    let sound = folds_of_rows(starts, ends, settings, room)?;
    numbers::below(settings.folds as u64, s)?;
    Ok(sound)
}

// Combinations: .. 6, 11, 8, 13.
pub fn cpcv<'a>(
    starts: &'a [i64],
    ends: &'a [i64],
    settings: Settings,
    k: usize,
    s: u64,
    room: usize,
) -> Result<(Sound<'a>, Choice), Refusal>
    ensures answer { said_checked result ≡ checked (table_checks starts.now ends.now settings room ++ combination_checks settings.folds k ++ no_such (choose settings.folds k) s ∷ []) tt }
    ensures passed { IfOk result (λ p. Holds p.0.table starts.now ends.now × (p.1.n ≡ settings.folds) × (p.1.k ≡ k) × (s < choose settings.folds k)) }
{
    let sound = folds_of_rows(starts, ends, settings, room)?;
    let choice = numbers::combinations(settings.folds, k)?;
    numbers::split_number(choice, s)?;
    Ok((sound, choice))
}

// Walk-forward: .. 7, 13: folds m to N - 1 are tested.
pub fn walk_forward<'a>(
    starts: &'a [i64],
    ends: &'a [i64],
    settings: Settings,
    m: usize,
    s: u64,
    room: usize,
) -> Result<Sound<'a>, Refusal>
    ensures answer { said_checked result ≡ checked (walk_forward_checks starts.now ends.now settings m s room) tt }
    ensures passed { IfOk result (λ t. Holds t.table starts.now ends.now) }
{
    let sound = folds_of_rows(starts, ends, settings, room)?;
    groups::minimum(settings.folds, m)?;
    numbers::below((settings.folds - m) as u64, s)?;
    Ok(sound)
}

// Does split s begin past the last row? The product is not made: it may be larger than any number here.
fn begins_past(n: usize, a: usize, step: usize, s: u64) -> bool
    requires { (a < n) × (0 < step) }
    ensures { result ≡ leb n (a + s * step) }
{
    (((n - 1 - a) / step) as u64) < s
}

// 12, 1, 10, 3, 4, 5: the rolling layout has no folds.
fn rows_alone<'a>(
    starts: &'a [i64],
    ends: &'a [i64],
    x: f64,
    room: usize,
) -> Result<Sound<'a>, Refusal>
    ensures answer { said_checked result ≡ checked (rows_alone starts.now ends.now x room) tt }
    ensures passed { IfOk result (λ t. Holds t.table starts.now ends.now) }
{
    let table = size(starts, ends)?;
    groups::fraction(x)?;
    spans_and_room(&table, room)?;
    Ok(Sound { table })
}

// The rolling layout: .. 15, 16, 13.
pub fn rolling<'a>(
    starts: &'a [i64],
    ends: &'a [i64],
    layout: Rolling,
    s: u64,
    room: usize,
) -> Result<Sound<'a>, Refusal>
    ensures answer { said_checked result ≡ checked (rows_alone starts.now ends.now layout.pct_embargo room ++ zero_size layout.min_train_size layout.test_size layout.step_size ∷ nothing_to_test layout.min_train_size (length starts.now) ∷ no_such (length starts.now) (layout.min_train_size + s * layout.step_size) ∷ []) tt }
    ensures passed { IfOk result (λ t. Holds t.table starts.now ends.now) }
{
    let sound = rows_alone(starts, ends, layout.pct_embargo, room)?;
    let n = sound.table.len();
    groups::sizes_within(layout, n)?;
    let past = begins_past(n, layout.min_train_size, layout.step_size, s);
    refuse_if(past, Refusal::NoSuchNumber)?;
    Ok(sound)
}
