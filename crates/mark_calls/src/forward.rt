// Walk-forward, and the rolling layout (01, "Purge, embargo, marks" and "Refusal numbers").
// Source: `walk_forward_splits` of cross_validation.rs and `run_walk_forward` of backtesting_engine.rs. Changed against them:
// - one split a call, as marks in a lent list, with their counts;
// - rows behind the test rows are marked as unused;
// - a refusal is an error with 01's number, found in 01's order; 17 is that of one split, and not of the whole run.
ghost use Rattle.std.specs.Prelude.{◌≡◌, length};
ghost use Rattle.paper.specs.Checks.{lent};
ghost use Rattle.paper.specs.Answers.{said};
ghost use Rattle.paper.specs.RowCalls.{walk_forward_marks, walk_forward_call, rolling_marks, rolling_call};

use crate::outcome::trained;
use paper::{Counts, FoldNumber, Refusal, Rolling, Rule, Settings, SplitNumber};
use row_checks::layouts as checked;

// Marks a walk-forward split: fold m + s is tested, and only rows before it can train. The window rule.
pub fn walk_forward(
    starts: &[i64],
    ends: &[i64],
    settings: Settings,
    m: usize,
    split: SplitNumber,
    marks: &mut [u8],
) -> Result<Counts, Refusal>
    ensures answer { said result ≡ walk_forward_call starts.now ends.now settings m split.0 (length marks.old) }
    ensures list { marks.new ≡ lent (walk_forward_call starts.now ends.now settings m split.0 (length marks.old)) marks.old (walk_forward_marks starts.now ends.now settings m split.0) }
{
    let sound = checked::walk_forward(starts, ends, settings, m, split.0, marks.len())?;
    let fold = FoldNumber(m + split.0 as usize);
    let counts = layouts::mark_walk_forward(&sound, settings.folds, fold, marks);
    trained(Rule::Window, counts)
}

// Marks a split of the rolling layout: up to `test_size` rows are tested, from row `min_train_size` + s·`step_size` on. The
// pair rule.
pub fn rolling(
    starts: &[i64],
    ends: &[i64],
    layout: Rolling,
    split: SplitNumber,
    marks: &mut [u8],
) -> Result<Counts, Refusal>
    ensures answer { said result ≡ rolling_call starts.now ends.now layout.pct_embargo layout.min_train_size layout.test_size layout.step_size split.0 (length marks.old) }
    ensures list { marks.new ≡ lent (rolling_call starts.now ends.now layout.pct_embargo layout.min_train_size layout.test_size layout.step_size split.0 (length marks.old)) marks.old (rolling_marks starts.now ends.now layout.min_train_size layout.test_size layout.step_size split.0) }
{
    let sound = checked::rolling(starts, ends, layout, split.0, marks.len())?;
    let b = layout.min_train_size + split.0 as usize * layout.step_size;
    let counts = layouts::mark_rolling(&sound, b, layout.test_size, marks);
    trained(Rule::Pair, counts)
}
