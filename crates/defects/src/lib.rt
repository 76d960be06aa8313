// The maker's defect map: its octets, both ways, and its place on the last cylinder. Functions take the set-up first: its type is of another crate, so
// they cannot be its methods.
#![tactic(auto)]

mod body;
mod crc;
mod crc_table;
mod decoding;
mod defect;
mod encodable;
mod encoding;
mod entries;
mod front;
mod gathering;
mod judging;
mod offence;
mod place;
mod sectors;
mod sets;
mod source;
mod storing;
mod walk;
mod walking;

pub use decoding::{MapRead, decode_map, read_map};
pub use defect::{Defect, decode_defect, encode_defect};
pub use encoding::{encode_map, write_map};
pub use offence::Offence;
pub use place::map_place;
