// k-fold and combinations, by the window rule or by the pair rule (01, "Purge, embargo, marks" and "Refusal numbers").
// Source: `split_with_diagnostics` and `cpcv_splits` of cross_validation.rs, `run_cross_validation` and `run_cpcv` of
// backtesting_engine.rs. Changed against them:
// - one split a call, as marks in a lent list, with their counts;
// - one call for both files, which is told the rule;
// - a refusal is an error with 01's number, found in 01's order; 17 is that of one split, and not of the whole run.
ghost use Rattle.std.specs.Prelude.{◌≡◌, length};
ghost use Rattle.paper.specs.Checks.{lent};
ghost use Rattle.paper.specs.Answers.{said};
ghost use Rattle.paper.specs.Rules.{rule_of};
ghost use Rattle.paper.specs.RowCalls.{kfold_marks, kfold_call, cpcv_marks, cpcv_call};

use crate::outcome::trained;
use paper::{Counts, FoldNumber, Refusal, Rule, Settings, SplitNumber};
use row_checks::layouts as checked;

// Marks a k-fold split.
pub fn kfold(
    rule: Rule,
    starts: &[i64],
    ends: &[i64],
    settings: Settings,
    split: SplitNumber,
    marks: &mut [u8],
) -> Result<Counts, Refusal>
    ensures answer { said result ≡ kfold_call (rule_of rule) starts.now ends.now settings split.0 (length marks.old) }
    ensures list { marks.new ≡ lent (kfold_call (rule_of rule) starts.now ends.now settings split.0 (length marks.old)) marks.old (kfold_marks (rule_of rule) starts.now ends.now settings split.0) }
{
    let sound = checked::kfold(starts, ends, settings, split.0, marks.len())?;
    let width = width::rounded_up(settings.embargo, sound.table.len());
    let fold = FoldNumber(split.0 as usize);
    let counts = layouts::mark_fold(rule, &sound, settings.folds, fold, width, marks);
    trained(rule, counts)
}

// Marks a split of combinations.
pub fn cpcv(
    rule: Rule,
    starts: &[i64],
    ends: &[i64],
    settings: Settings,
    k: usize,
    split: SplitNumber,
    marks: &mut [u8],
) -> Result<Counts, Refusal>
    ensures answer { said result ≡ cpcv_call (rule_of rule) starts.now ends.now settings k split.0 (length marks.old) }
    ensures list { marks.new ≡ lent (cpcv_call (rule_of rule) starts.now ends.now settings k split.0 (length marks.old)) marks.old (cpcv_marks (rule_of rule) starts.now ends.now settings k split.0) }
{
    let (sound, choice) = checked::cpcv(starts, ends, settings, k, split.0, marks.len())?;
    let width = width::rounded_up(settings.embargo, sound.table.len());
    let set = choice.set_at(split.0);
    let counts = layouts::mark_folds(rule, &sound, settings.folds, set, width, marks);
    trained(rule, counts)
}
