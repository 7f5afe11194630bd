// What the calls share: the last check, which needs the counts (01, "Refusal numbers": 17).
ghost use Rattle.std.specs.Prelude.{◌≡◌};
ghost use Rattle.paper.specs.Checks.{checked};
ghost use Rattle.paper.specs.Answers.{said};
ghost use Rattle.paper.specs.Rules.{rule_of};
ghost use Rattle.mark_calls.specs.Trainless.{trainless};

use paper::{Counts, Refusal, Rule};

// 17: the pair rule refuses a split that leaves no row to train on. Its marks stay written.
pub fn trained(rule: Rule, counts: Counts) -> Result<Counts, Refusal>
    ensures { said result ≡ checked (trainless (rule_of rule) counts) counts }
{
    match rule {
        Rule::Pair if counts.train == 0 => Err(Refusal::EmptyTrain),
        _ => Ok(counts),
    }
}
