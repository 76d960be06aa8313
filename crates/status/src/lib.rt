// The octets that tell a drive's status: the drive status octet and the status response, both ways.
#![tactic(auto)]

mod drive_status;
mod response;

pub use drive_status::{DriveStatus, decode_drive_status, encode_drive_status};
pub use response::{Response, decode_response, encode_response};
