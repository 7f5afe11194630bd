// The embargo width on doubles (01, "Purge, embargo, marks").
// Source: `embargo_width` of cross_validation.rs, and the test of `pct_embargo` in `PurgedKFold::new`. Changed against them:
// - the ceiling is worked out: the product without its fraction, and one more where that is less;
// - a number that is no fraction and a table too long are refused here, where the Rust's callers check first;
// - the test is a function of its own, and leaves out `is_finite`, which [0,1) implies.
#![tactic(auto)]

ghost use Rattle.std.specs.Prelude.{◌≡◌, ◌≤◌, true};
ghost use Rattle.paper.specs.Answers.{said};
ghost use Rattle.paper.specs.Checks.{checked};
ghost use Rattle.paper.specs.Width.{is_fraction, width_of};
ghost use Rattle.width.specs.Answer.{width_checks};

use paper::{Refusal, Settings};

// Does x lie in [0,1)? -0.0 does, a NaN does not.
pub fn is_fraction(x: f64) -> bool
    ensures { result ≡ is_fraction x }
{
    x >= 0.0 && x < 1.0
}

// How many rows an embargo covers, for a fraction of n rows.
pub fn embargo_width(fraction: f64, n: usize) -> Result<usize, Refusal>
    ensures { said result ≡ checked (width_checks fraction n) (width_of fraction n) }
{
    if Settings::MAX_ROWS < n {
        return Err(Refusal::TooManyRows);
    }
    if is_fraction(fraction) {
        Ok(rounded_up(fraction, n))
    } else {
        Err(Refusal::InvalidEmbargo(fraction))
    }
}

// The width of a fraction that has been checked: the product, rounded once to the nearest double, and then up to a whole
// number. It is n at most.
pub fn rounded_up(fraction: f64, n: usize) -> usize
    requires fraction_value { is_fraction fraction ≡ true }
    requires n_bound { n ≤ 1048576 }
    ensures { result ≡ width_of fraction n }
{
    let product = fraction * (n as f64);
    let whole = std::num::truncating_f64_to_u64(product);
    if (whole as f64) < product {
        (whole + 1) as usize
    } else {
        whole as usize
    }
}
