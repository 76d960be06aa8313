// The drive by value: power-up, and what selection, deselection and reset make of it. `specs/` defines every event, and `proofs/` has what the
// customer asked to know of them; the code of the other kinds is in `events`.
#![tactic(auto)]

mod answer;
mod drive;
mod power;

pub use answer::{Answer, Outcome};
pub use drive::Drive;
pub use power::power_up;
