// Splits and paths of combinations by number (01, "Combinations and paths"). No call lists splits.
// Source: `cpcv_splits` and `cpcv_paths` of cross_validation.rs, `combinations`, `cpcv_path_count` and
// `build_cpcv_path_assignments` of backtesting_engine.rs. Changed against them:
// - one split, path or fold a call, where the Rust makes all of them;
// - a refusal is an error with 01's number, found in 01's order;
// - the number of a fold set and the set after it are new.
ghost use Rattle.std.specs.Prelude.{◌≡◌, ◌<◌, length};
ghost use Rattle.paper.specs.Paths.{paths, path_of};
ghost use Rattle.paper.specs.Handed.{list_of};
ghost use Rattle.paper.specs.Answers.{said, said_placed};
ghost use Rattle.paper.specs.SplitCalls.{split_count, path_count, split_folds, set_number, set_next, path_split, path_written, path_after};

use checks::numbers;
use paper::{FoldNumber, FoldSet, PathNumber, Refusal, SplitNumber};
use sets::Choice;

// How many splits there are: C(N,k).
pub fn split_count(folds: usize, k: usize) -> Result<u64, Refusal>
    ensures { said result ≡ split_count folds k }
{
    let choice = numbers::counts(folds, k)?;
    Ok(sets::n_choose_k(choice.n, choice.k))
}

// How many paths there are: C(N-1,k-1).
pub fn path_count(folds: usize, k: usize) -> Result<u64, Refusal>
    ensures { said result ≡ path_count folds k }
{
    let choice = numbers::counts(folds, k)?;
    Ok(sets::n_choose_k(choice.n - 1, choice.k - 1))
}

// The folds that a split tests.
pub fn folds_of_split(folds: usize, k: usize, split: SplitNumber) -> Result<FoldSet, Refusal>
    ensures { said result ≡ split_folds folds k split.0 }
{
    let choice = numbers::split(folds, k, split.0)?;
    Ok(choice.set_at(split.0))
}

// The number of the split that tests these folds.
pub fn number_of_folds(folds: usize, k: usize, set: FoldSet) -> Result<SplitNumber, Refusal>
    ensures { said_placed result ≡ set_number folds k (list_of set) }
{
    let split = numbers::set(folds, k, set)?;
    Ok(SplitNumber(split.number()))
}

// The folds of the split after the one that tests these, or none, where it is the last.
pub fn next_fold_set(folds: usize, k: usize, set: FoldSet) -> Result<Option<FoldSet>, Refusal>
    ensures { said result ≡ set_next folds k (list_of set) }
{
    let split = numbers::set(folds, k, set)?;
    Ok(split.next())
}

// The split that a path takes for a fold.
pub fn split_on_path(
    folds: usize,
    k: usize,
    path: PathNumber,
    fold: FoldNumber,
) -> Result<SplitNumber, Refusal>
    ensures { said_placed result ≡ path_split folds k path.0 fold.0 }
{
    let choice = numbers::path(folds, k, path.0, fold.0)?;
    Ok(SplitNumber(choice.split_on_path(path.0, fold.0)))
}

// The splits of path p, fold by fold.
fn write_path(choice: Choice, p: u64, out: &mut [u64])
    requires { (p < paths choice.n choice.k) × (length out.old ≡ choice.n) }
    ensures { out.new ≡ path_of choice.n choice.k p }
{
    for (g, split) in out.iter_mut().enumerate() {
        *split = choice.split_on_path(p, g);
    }
}

// The splits that a path takes, for each fold one, into a lent list of N places.
pub fn whole_path(folds: usize, k: usize, path: PathNumber, out: &mut [u64]) -> Result<(), Refusal>
    ensures answer { said result ≡ path_written folds k path.0 (length out.old) }
    ensures list { out.new ≡ path_after folds k path.0 out.old }
{
    let choice = numbers::whole_path(folds, k, path.0, out.len())?;
    write_path(choice, path.0, out);
    Ok(())
}
