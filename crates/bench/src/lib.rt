// The bench: a capture replayed on the bench drive, or a part of it, and the text of the report.
#![tactic(auto)]

mod line;
mod part;
mod report;
mod run;
mod text;

pub use report::{Wanted, replay, replay_part};
pub use text::LONGEST_REPORT;
