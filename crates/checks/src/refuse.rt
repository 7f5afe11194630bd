// One check (01, "Refusal numbers").
ghost use Rattle.std.specs.Prelude.{◌≡◌, false, [], ◌∷◌, IfOk};
ghost use Rattle.paper.specs.Checks.{checked};
ghost use Rattle.checks.specs.Said.{said_checked, due_as};

use paper::Refusal;

// The refusal, where it is due.
pub fn refuse_if(due: bool, refusal: Refusal) -> Result<(), Refusal>
    ensures answer { said_checked result ≡ checked (due_as refusal due ∷ []) tt }
    ensures passed { IfOk result (λ _. due ≡ false) }
{
    if due { Err(refusal) } else { Ok(()) }
}
