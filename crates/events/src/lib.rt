// Every event, on the words of a drive's state: one or many of them for C and Rust, and one on a drive by value.
#![tactic(auto)]

mod answer_words;
mod batch;
mod by_value;
mod coming;
mod command;
mod event;
mod judge;
mod kinds;
mod layout;
mod part;
mod pending;
mod place;
mod power;
mod request;
mod state;
mod step;
mod timing;
mod transfer;
mod words;

pub use answer_words::{ABSENT, ANSWER_WORDS};
pub use by_value::handle;
pub use event::{answer_event, run_records};
pub use part::replay_part;
pub use power::power_up_words;
pub use state::STATE_WORDS;
