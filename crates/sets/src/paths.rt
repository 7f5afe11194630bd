// The split that a path takes for a fold (01, "Combinations and paths").
// Source: `cpcv_paths` of cross_validation.rs and `build_cpcv_path_assignments` of backtesting_engine.rs. Changed against them:
// - one path and one fold a call, by binomials, where the Rust lists for every fold the splits that test it;
// - that every fold has as many splits as there are paths is a law, and is not tested at run time.
ghost use Rattle.std.specs.Prelude.{◌≡◌, ◌≤◌, ◌<◌};
ghost use Rattle.paper.specs.Sets.{listing};
ghost use Rattle.paper.specs.Paths.{paths, split_on_path};
ghost use Rattle.paper.proofs.Listing.{hold};
ghost use Rattle.paper.proofs.PathsMeaning.{Pth};
ghost use Rattle.sets.specs.Work.{Ahead};

use crate::binomial::n_choose_k;
use crate::choice::Choice;

// How many k-element sets of n folds hold a given one.
fn holding(n: usize, k: usize) -> u64
    requires { (0 < n) × (n ≤ 64) }
    ensures { result ≡ hold n k }
{
    if k == 0 { 0 } else { n_choose_k(n - 1, k - 1) }
}

// The number, among the k-element sets of the n folds from `first` on, of the p-th that holds g.
#[tactic(auto, using(crate::proofs::PathLaws::hold_zero))]
fn split_from(first: usize, n: usize, k: usize, p: u64, g: usize) -> u64
    requires { Ahead first n k p g }
    ensures { Pth (listing first n k) g p result }
{
    if first == g {
        return p;
    }
    let both = holding(n - 1, k - 1);
    if p < both {
        split_from(first + 1, n - 1, k - 1, p, g)
    } else {
        n_choose_k(n - 1, k - 1) + split_from(first + 1, n - 1, k, p - both, g)
    }
}

impl Choice {
    // The split that path p takes for fold g.
    pub fn split_on_path(self, p: u64, g: usize) -> u64
        requires { (p < paths self.n self.k) × (g < self.n) }
        ensures { result ≡ split_on_path self.n self.k p g }
    {
        split_from(0, self.n, self.k, p, g)
    }
}
