// The groups that the calls share: the table, the folds, the fraction, the spans.
ghost use Rattle.std.specs.Prelude.{◌≡◌, ◌||◌, [], ◌∷◌, ◌<◌, ◌≤◌, ltb, eqb, IfOk};
ghost use Rattle.paper.specs.Checks.{checked, lengths_differ, no_rows, too_many_rows, bad_folds, bad_fraction, bad_span, bad_minimum, zero_size, nothing_to_test};
ghost use Rattle.laws.specs.Windows.{Good};
ghost use Rattle.spans.specs.Tables.{table_of, Holds};
ghost use Rattle.checks.specs.Said.{said_checked};

use checks::numbers::outside;
use checks::refuse_if;
use paper::{Refusal, Rolling, Settings};
use spans::Table;

// 12: starts and ends differ in length. Where they do not, they are a table.
pub fn lengths<'a>(starts: &'a [i64], ends: &'a [i64]) -> Result<Table<'a>, Refusal>
    ensures answer { said_checked result ≡ checked (lengths_differ starts.now ends.now ∷ []) tt }
    ensures passed { IfOk result (λ t. Holds t starts.now ends.now) }
{
    Table::new(starts, ends).ok_or(Refusal::LengthsDiffer)
}

// 1 and 10: no rows, too many rows.
pub fn rows(n: usize) -> Result<(), Refusal>
    ensures answer { said_checked result ≡ checked (no_rows n ∷ too_many_rows n ∷ []) tt }
    ensures passed { IfOk result (λ _. n ≤ 1048576) }
{
    refuse_if(n == 0, Refusal::NoRows)?;
    refuse_if(Settings::MAX_ROWS < n, Refusal::TooManyRows)
}

fn bad_folds(folds: usize, n: usize) -> bool
    ensures { result ≡ (ltb folds 2 || ltb n folds) }
{
    folds < 2 || n < folds
}

// 2: N < 2 or N > n.
pub fn folds(folds: usize, n: usize) -> Result<(), Refusal>
    ensures { said_checked result ≡ checked (bad_folds folds n ∷ []) tt }
{
    refuse_if(bad_folds(folds, n), Refusal::InvalidSplits(folds, n))
}

// 3: the fraction is not in [0,1).
pub fn fraction(x: f64) -> Result<(), Refusal>
    ensures { said_checked result ≡ checked (bad_fraction x ∷ []) tt }
{
    refuse_if(!width::is_fraction(x), Refusal::InvalidEmbargo(x))
}

// 4: some end before its start.
pub fn spans(table: &Table) -> Result<(), Refusal>
    ensures answer { said_checked result ≡ checked (bad_span (table_of table.now) ∷ []) tt }
    ensures passed { IfOk result (λ _. Good (table_of table.now)) }
{
    match scans::first_backward(table) {
        Some(row) => Err(Refusal::InvalidInfoSet(row)),
        None => Ok(()),
    }
}

// 7: m = 0 or m ≥ N.
pub fn minimum(folds: usize, m: usize) -> Result<(), Refusal>
    ensures answer { said_checked result ≡ checked (bad_minimum folds m ∷ []) tt }
    ensures passed { IfOk result (λ _. m < folds) }
{
    refuse_if(outside(folds, m), Refusal::InvalidMinTrainFolds)
}

fn zero_size(layout: Rolling) -> bool
    ensures { result ≡ (eqb layout.min_train_size 0 || eqb layout.test_size 0 || eqb layout.step_size 0) }
{
    layout.min_train_size == 0 || layout.test_size == 0 || layout.step_size == 0
}

// 15: a size or step of the rolling layout is 0.
pub fn sizes(layout: Rolling) -> Result<(), Refusal>
    ensures answer { said_checked result ≡ checked (zero_size layout.min_train_size layout.test_size layout.step_size ∷ []) tt }
    ensures passed { IfOk result (λ _. 0 < layout.step_size) }
{
    refuse_if(zero_size(layout), Refusal::ZeroSize)
}

// 15 and 16: besides, no row is left to test.
pub fn sizes_within(layout: Rolling, n: usize) -> Result<(), Refusal>
    ensures answer { said_checked result ≡ checked (zero_size layout.min_train_size layout.test_size layout.step_size ∷ nothing_to_test layout.min_train_size n ∷ []) tt }
    ensures passed { IfOk result (λ _. (layout.min_train_size < n) × (0 < layout.step_size)) }
{
    sizes(layout)?;
    refuse_if(n <= layout.min_train_size, Refusal::NothingToTest)
}
