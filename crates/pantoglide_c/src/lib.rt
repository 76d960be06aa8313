// The archive for C and Rust: each export calls the function of `pantoglide` of the same name and promises what it does. Two crates, since no crate can
// call what a static library exports, and the cases call what C calls.
#![tactic(auto)]

mod capture_calls;
mod defect_calls;
mod event;
mod line;
mod lines_calls;
mod map_calls;
mod power;
mod replay;
mod run;
