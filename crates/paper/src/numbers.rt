// Split numbers, path numbers and fold numbers are kinds of their own, so that none can be passed for another
// (01, "Rows, times, settings"), and a split as it is handed out (01, "Combinations and paths").
ghost use Rattle.std.specs.Prelude.{◌≡◌, take};
ghost use Rattle.paper.specs.Handed.{no_folds};

// A split, counted from 0 in the order of the listing.
#[derive(Clone, Copy)]
pub struct SplitNumber(pub u64);

// A path, counted from 0.
#[derive(Clone, Copy)]
pub struct PathNumber(pub u64);

// A fold, counted from 0.
#[derive(Clone, Copy, PartialEq, Eq)]
pub struct FoldNumber(pub usize);

// The ascending fold list of a split, with its length. Unused places hold 0.
#[derive(Clone, Copy, PartialEq, Eq)]
pub struct FoldSet {
    pub folds: [FoldNumber; 64],
    pub count: usize,
}

impl FoldSet {
    // The set with no fold, to which folds are added.
    pub fn none() -> Self
        ensures { result ≡ no_folds }
    {
        FoldSet {
            folds: [FoldNumber(0); 64],
            count: 0,
        }
    }

    // The folds in use. A count above 64 stands for 64: there are no more places.
    pub fn as_slice(&self) -> &[FoldNumber]
        ensures { result.now ≡ take self.now.count self.now.folds }
    {
        &self.folds[..self.count.min(64)]
    }
}
