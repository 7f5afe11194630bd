// By which rule rows are purged (01, "Purge, embargo, marks"). Its source is the two files: `PurgedKFold` of
// cross_validation.rs purges by windows, `apply_purge_and_embargo` of backtesting_engine.rs by pairs. New against them: one
// engine for both, which is told the rule.
#[derive(Clone, Copy, PartialEq, Eq)]
pub enum Rule {
    // A row that overlaps the window of some block.
    Window,
    // A row that overlaps the span of some test row.
    Pair,
}
