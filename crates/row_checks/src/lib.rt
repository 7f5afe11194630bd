// The checks of calls on rows, in 01's order (01, "Refusal numbers").
// Source: `PurgedKFold::new`, `check_n_samples` and `walk_forward_splits` of cross_validation.rs, `BacktestData::validate` and
// `run_walk_forward` of backtesting_engine.rs. Changed against them:
// - one order for all calls, 01's;
// - starts and ends of different lengths, and more than 1,048,576 rows, have refusals of their own;
// - the lent list of marks is checked too.
#![tactic(auto)]

pub mod groups;
pub mod layouts;
