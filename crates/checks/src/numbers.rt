// The checks of calls on N, k and split, path or fold numbers alone (01, "Refusal numbers").
// Source: `check_test_splits` of cross_validation.rs and `validate_cpcv_params` of backtesting_engine.rs. Changed against them:
// - 01's order, with N < 2 first, where n is carried as 0;
// - more than 64 folds get a refusal of their own, 11;
// - a number that is none gets 13, where the Rust hands out all splits and paths and is given no numbers;
// - the whole path goes into a lent list, and one that is not N long gets 5;
// - numbers that pass come back as a `Choice`, and with a fold set as a `Split`, so that the calls need not test them again.
ghost use Rattle.std.specs.Prelude.{◌≡◌, ◌||◌, [], ◌∷◌, ◌<◌, ◌≤◌, true, eqb, leb, IfOk};
ghost use Rattle.paper.specs.Handed.{list_of};
ghost use Rattle.paper.specs.Checks.{checked, few_folds, combination_checks, no_such, no_split, numbers_checks, split_checks, set_checks, path_checks, whole_path_checks, wrong_length};
ghost use Rattle.paper.specs.Sets.{choose, is_split};
ghost use Rattle.paper.specs.Paths.{paths};
ghost use Rattle.checks.specs.Said.{said_checked};

use crate::refuse::refuse_if;
use paper::{FoldSet, Refusal, Settings};
use sets::{Choice, Split, n_choose_k};

// 2: N < 2.
pub fn few_folds(n: usize) -> Result<(), Refusal>
    ensures { said_checked result ≡ checked (few_folds n ∷ []) tt }
{
    refuse_if(n < 2, Refusal::InvalidSplits(n, 0))
}

// 5: a lent list that is not as long as it should be.
pub fn list_length(long: usize, due: usize) -> Result<(), Refusal>
    ensures answer { said_checked result ≡ checked (wrong_length long due ∷ []) tt }
    ensures passed { IfOk result (λ _. long ≡ due) }
{
    refuse_if(long != due, Refusal::WrongLength)
}

// Does k lie outside 1..n, n not counted? The test of 6, and of 7.
pub fn outside(n: usize, k: usize) -> bool
    ensures { result ≡ (eqb k 0 || leb n k) }
{
    k == 0 || n <= k
}

// 6, 11 and 8.
pub fn combinations(n: usize, k: usize) -> Result<Choice, Refusal>
    ensures answer { said_checked result ≡ checked (combination_checks n k) tt }
    ensures passed { IfOk result (λ c. (c.n ≡ n) × (c.k ≡ k)) }
{
    refuse_if(outside(n, k), Refusal::InvalidTestSplits)?;
    refuse_if(Settings::MAX_CPCV_FOLDS < n, Refusal::TooManyFolds)?;
    let choice = Choice { n, k };
    refuse_if(choice.too_many(), Refusal::TooManySplits)?;
    Ok(choice)
}

// 13: a number that is not below how many there are.
pub fn below(many: u64, number: u64) -> Result<(), Refusal>
    ensures answer { said_checked result ≡ checked (no_such many number ∷ []) tt }
    ensures passed { IfOk result (λ _. number < many) }
{
    refuse_if(many <= number, Refusal::NoSuchNumber)
}

// 13 of a split number.
pub fn split_number(choice: Choice, s: u64) -> Result<(), Refusal>
    ensures answer { said_checked result ≡ checked (no_such (choose choice.n choice.k) s ∷ []) tt }
    ensures passed { IfOk result (λ _. s < choose choice.n choice.k) }
{
    below(n_choose_k(choice.n, choice.k), s)
}

// 13 of a path number.
pub fn path_number(n: usize, k: usize, p: u64) -> Result<(), Refusal>
    requires { (0 < n) × (n ≤ 64) × (0 < k) }
    ensures answer { said_checked result ≡ checked (no_such (paths n k) p ∷ []) tt }
    ensures passed { IfOk result (λ _. p < paths n k) }
{
    below(n_choose_k(n - 1, k - 1), p)
}

// 13 of a fold set, of any n and k.
pub fn fold_set(n: usize, k: usize, set: FoldSet) -> Result<(), Refusal>
    ensures answer { said_checked result ≡ checked (no_split n k (list_of set) ∷ []) tt }
    ensures passed { IfOk result (λ _. is_split n k (list_of set) ≡ true) }
{
    refuse_if(!sets::is_split(n, k, set), Refusal::NoSuchNumber)
}

// 13 of a fold set where N and k have passed: the split that it is.
pub fn split_of(choice: Choice, set: FoldSet) -> Result<Split, Refusal>
    ensures answer { said_checked result ≡ checked (no_split choice.n choice.k (list_of set) ∷ []) tt }
    ensures passed { IfOk result (λ s. (s.choice.n ≡ choice.n) × (s.choice.k ≡ choice.k) × (s.set ≡ set)) }
{
    choice.split(set).ok_or(Refusal::NoSuchNumber)
}

// All checks of the split count and the path count.
pub fn counts(n: usize, k: usize) -> Result<Choice, Refusal>
    ensures answer { said_checked result ≡ checked (numbers_checks n k) tt }
    ensures passed { IfOk result (λ c. (c.n ≡ n) × (c.k ≡ k)) }
{
    few_folds(n)?;
    combinations(n, k)
}

// All checks of the folds of a split.
pub fn split(n: usize, k: usize, s: u64) -> Result<Choice, Refusal>
    ensures answer { said_checked result ≡ checked (split_checks n k s) tt }
    ensures passed { IfOk result (λ c. (c.n ≡ n) × (c.k ≡ k) × (s < choose n k)) }
{
    let choice = counts(n, k)?;
    split_number(choice, s)?;
    Ok(choice)
}

// All checks of the number of a fold set and of the set after it.
pub fn set(n: usize, k: usize, folds: FoldSet) -> Result<Split, Refusal>
    ensures answer { said_checked result ≡ checked (set_checks n k (list_of folds)) tt }
    ensures passed { IfOk result (λ s. (s.choice.n ≡ n) × (s.choice.k ≡ k) × (s.set ≡ folds)) }
{
    split_of(counts(n, k)?, folds)
}

// All checks of the split on a path.
pub fn path(n: usize, k: usize, p: u64, g: usize) -> Result<Choice, Refusal>
    ensures answer { said_checked result ≡ checked (path_checks n k p g) tt }
    ensures passed { IfOk result (λ c. (c.n ≡ n) × (c.k ≡ k) × (p < paths n k) × (g < n)) }
{
    let choice = counts(n, k)?;
    path_number(choice.n, choice.k, p)?;
    below(choice.n as u64, g as u64)?;
    Ok(choice)
}

// All checks of the whole path, `long` being the length of the lent list.
pub fn whole_path(n: usize, k: usize, p: u64, long: usize) -> Result<Choice, Refusal>
    ensures answer { said_checked result ≡ checked (whole_path_checks n k p long) tt }
    ensures passed { IfOk result (λ c. (c.n ≡ n) × (c.k ≡ k) × (p < paths n k) × (long ≡ n)) }
{
    few_folds(n)?;
    list_length(long, n)?;
    let choice = combinations(n, k)?;
    path_number(choice.n, choice.k, p)?;
    Ok(choice)
}
