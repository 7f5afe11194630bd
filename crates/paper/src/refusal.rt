// The eighteen refusals of document 01 and what each carries. Their source is `CrossValidationError` and `BacktestError`.
// Changed against them: no text, a number for each case, and only what 01's table says is carried.
ghost use Rattle.std.specs.Prelude.{◌≡◌};
ghost use Rattle.paper.specs.Refusals.{number_of};

#[derive(Clone, Copy)]
pub enum Refusal {
    // 1: no rows.
    NoRows,
    // 2: N < 2 or N > n. Carries N and n.
    InvalidSplits(usize, usize),
    // 3: the fraction is not in [0,1). Carries the fraction as it came in.
    InvalidEmbargo(f64),
    // 4: some end before its start. Carries the first such row.
    InvalidInfoSet(usize),
    // 5: a lent list of marks, flags or output of the wrong length.
    WrongLength,
    // 6: k = 0 or k ≥ N.
    InvalidTestSplits,
    // 7: m = 0 or m ≥ N.
    InvalidMinTrainFolds,
    // 8: too many splits.
    TooManySplits,
    // 9: an index that is no row. Carries it.
    IndexOutOfRange(usize),
    // 10: more rows than the ceiling.
    TooManyRows,
    // 11: combinations of more folds than the ceiling.
    TooManyFolds,
    // 12: starts and ends differ in length.
    LengthsDiffer,
    // 13: no such split, path or fold number.
    NoSuchNumber,
    // 15: a size or step of the rolling layout is 0.
    ZeroSize,
    // 16: the minimum train size leaves no row to test.
    NothingToTest,
    // 17: no row is left to train on.
    EmptyTrain,
    // 18: joined returns of the wrong length.
    ReturnsLength,
    // 19: a return is not finite. Carries its place.
    NotFinite(usize),
}

impl Refusal {
    // 01's number of the refusal.
    pub fn number(self) -> u64
        ensures { result ≡ number_of self }
    {
        match self {
            Refusal::NoRows => 1,
            Refusal::InvalidSplits(_, _) => 2,
            Refusal::InvalidEmbargo(_) => 3,
            Refusal::InvalidInfoSet(_) => 4,
            Refusal::WrongLength => 5,
            Refusal::InvalidTestSplits => 6,
            Refusal::InvalidMinTrainFolds => 7,
            Refusal::TooManySplits => 8,
            Refusal::IndexOutOfRange(_) => 9,
            Refusal::TooManyRows => 10,
            Refusal::TooManyFolds => 11,
            Refusal::LengthsDiffer => 12,
            Refusal::NoSuchNumber => 13,
            Refusal::ZeroSize => 15,
            Refusal::NothingToTest => 16,
            Refusal::EmptyTrain => 17,
            Refusal::ReturnsLength => 18,
            Refusal::NotFinite(_) => 19,
        }
    }
}
