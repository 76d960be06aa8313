// The refusals by their names: one numbering for all that can be refused.
#![tactic(auto)]

mod refusal;

pub use refusal::Refusal;
