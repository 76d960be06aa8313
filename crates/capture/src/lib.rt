// Captures of events: the records, the trailer behind them and the notes before them, both ways.
#![tactic(auto)]

mod capture;
mod encoding;
mod record;

pub use capture::{Capture, decode_capture, notes, records};
pub use encoding::encode_capture;
pub use record::{RECORD_LENGTH, Record, decode_record, encode_record};
