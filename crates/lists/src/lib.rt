// No code: the definitions and laws of this crate stand in specs/.
#![tactic(auto)]
