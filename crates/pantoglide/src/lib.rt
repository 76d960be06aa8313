// The drive, the line follower, captures and the defect map for C and Rust: numbers and lent slices alone. `include/pantoglide.h` is the header, and the
// arguments are its own, one for one: seven numbers for a set-up, an octet for an answer.
#![tactic(auto)]

mod capture_calls;
mod defect_calls;
mod event;
mod line;
mod lines_calls;
mod map_calls;
mod power;
mod replay;
mod run;
mod told;

pub use capture_calls::{pg_capture, pg_make_capture};
pub use defect_calls::{pg_decode_defect, pg_encode_defect, pg_map_place};
pub use event::pg_event;
pub use line::pg_line;
pub use lines_calls::{pg_lines, pg_lines_plain};
pub use map_calls::{pg_decode_map, pg_encode_map, pg_read_map, pg_write_map};
pub use power::pg_power_up;
pub use replay::pg_replay;
pub use run::pg_run;
