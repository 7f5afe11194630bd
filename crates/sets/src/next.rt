// The fold set after a given one (01, "Combinations and paths"), so that a program walks all splits with no number at hand.
// Source: the pushing recursion `combinations_recursive` of backtesting_engine.rs, which goes on to the next set where it
// pops. Changed against it:
// - one step a call, from the set itself;
// - after the last set there is none.
ghost use Rattle.std.specs.Prelude.{◌≡◌, ◌++◌, ◌≤◌, ◌+◌, length, take};
ghost use Rattle.paper.specs.Handed.{handed, list_of};
ghost use Rattle.paper.specs.Places.{next_folds};
ghost use Rattle.sets.specs.Work.{Tidy, Turn, past, up};

use crate::choice::{Choice, Split};
use crate::numbering::with_fold;
use paper::FoldSet;

// The first folds of a set.
fn beginning(set: FoldSet, many: usize) -> FoldSet
    requires { (many ≤ length (list_of set)) × (many ≤ 64) }
    ensures { result ≡ handed (take many (list_of set)) }
{
    let mut out = FoldSet::none();
    for fold in &set.folds[..many] {
        out = with_fold(out, fold.0);
    }
    out
}

// The set with `many` folds more, one after another from `first` on.
fn with_run(set: FoldSet, first: usize, many: usize) -> FoldSet
    requires { Tidy set × (set.count + many ≤ 64) × (first + many ≤ 64) }
    ensures { result ≡ handed (list_of set ++ up first many) }
{
    let mut out = set;
    for fold in first..first + many {
        out = with_fold(out, fold);
    }
    out
}

impl Split {
    // The place of the last fold that can rise: behind it stand the highest folds there are. None where all are such.
    #[tactic(auto, using(crate::proofs::NextLaws::split_room))]
    fn turn(self) -> Option<usize>
        ensures { Turn self.choice.n (list_of self.set) (past result) }
    {
        let Choice { n, k } = self.choice;
        for i in (0..k).rev() {
            if self.set.folds[i].0 + (k - i) < n {
                return Some(i);
            }
        }
        None
    }

    // The set after this split: the last fold that can rise does so by one, and those behind it follow one after another.
    pub fn next(self) -> Option<FoldSet>
        ensures { result ≡ next_folds self.choice.n self.choice.k (list_of self.set) }
    {
        let Some(at) = self.turn() else {
            return None;
        };
        let rising = self.set.folds[at].0 + 1;
        Some(with_run(beginning(self.set, at), rising, self.choice.k - at))
    }
}
