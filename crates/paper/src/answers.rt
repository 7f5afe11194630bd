// What the calls answer where there is more to say than a number: the counts beside the marks. A call's answer is a `Result`
// with the refusal as its error.

// How many rows of a split train, are tested, are purged (marks 2 and 4) and are embargoed (marks 3 and 4).
#[derive(Clone, Copy, Default)]
pub struct Counts {
    pub train: usize,
    pub test: usize,
    pub purged: usize,
    pub embargoed: usize,
}

// The training entries that overlap some test entry.
#[derive(Clone, Copy)]
pub struct OverlapCount {
    pub count: usize,
}
