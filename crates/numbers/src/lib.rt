// Numbers as a program is told them, in decimal.
#![tactic(auto)]

mod number;

pub use number::{MOST_DIGITS, number_of};
