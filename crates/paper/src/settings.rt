// The settings record, and what the rolling layout is made with (01, "Rows, times, settings"). The record's source is
// `PurgedKFold` of cross_validation.rs. Changed against it:
// - the table is lent to each call and is no part of the record;
// - making settings checks nothing: each call checks the settings it gets, in 01's order.
ghost use Rattle.std.specs.Prelude.{◌≡◌};

#[derive(Clone, Copy)]
pub struct Settings {
    // N, the number of folds (`n_splits`).
    pub folds: usize,
    // The embargo as a fraction of all rows (`pct_embargo`).
    pub embargo: f64,
}

impl Settings {
    // The most rows that a table may have: above this, refusal 10.
    pub const MAX_ROWS: usize = 1048576;

    // The most folds for combinations: above this, refusal 11.
    pub const MAX_CPCV_FOLDS: usize = 64;

    pub fn new(folds: usize, embargo: f64) -> Self
        ensures { result ≡ record { folds = folds; embargo = embargo } }
    {
        Settings { folds, embargo }
    }
}

// What the rolling layout is made with. Its source is `WalkForwardConfig` of backtesting_engine.rs.
#[derive(Clone, Copy)]
pub struct Rolling {
    // a, the first row that is tested.
    pub min_train_size: usize,
    // How many rows each split tests.
    pub test_size: usize,
    // How many rows one split begins behind the other.
    pub step_size: usize,
    // The embargo as a fraction of all rows, which is checked and has no effect: all that trains stands before the test rows.
    pub pct_embargo: f64,
}
