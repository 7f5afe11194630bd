// The checks of the calls, in 01's order (01, "Refusal numbers"): each answers nothing, or what it has made sure of, or the
// refusal, which `?` hands on past all later checks.
#![tactic(auto)]

pub mod numbers;
pub mod refuse;

pub use refuse::refuse_if;
