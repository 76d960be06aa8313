// The calls on octets: each is done, or refused, or does not tell what it must.
use capture::{Capture, Record};
use refusals::Refusal;
use status::{DriveStatus, Response};

#[derive(Clone, Copy)]
pub(crate) enum Call {
    // Reads the octets, and writes what they say again.
    DriveStatus,
    Response,
    Record,
    Capture,
    // Reads the octets: how many stand before the first record, and how many records there are.
    CaptureAt { first: usize, count: usize },
    // Writes the capture of so many octets of notes and, behind them, the records.
    CaptureOf { notes: usize },
    // Given nothing, write a header miscompare; the response to a missing target; and a record of which all parts differ. So it is
    // known which part stands where, and that what is read has its parts there follows from writing it again.
    Miscompare,
    NoTarget,
    Parts,
}

#[derive(Clone, Copy, PartialEq, Eq)]
pub(crate) enum Failure {
    // With this number.
    Refused(u8),
    NotAsTold,
}

impl From<Refusal> for Failure {
    fn from(refusal: Refusal) -> Failure {
        Failure::Refused(u8::from(refusal))
    }
}

pub(crate) fn called(call: Call, given: &[u8], room: &mut [u8]) -> Result<(), Failure> {
    match call {
        Call::DriveStatus => {
            let found = status::decode_drive_status(given)?;
            status::encode_drive_status(found, room)?;
        }
        Call::Response => {
            let found = status::decode_response(given)?;
            status::encode_response(found, room)?;
        }
        Call::Record => {
            let found = capture::decode_record(given)?;
            capture::encode_record(found, room)?;
        }
        Call::Capture => fill(capture::notes(given), capture::records(given), room)?,
        Call::CaptureAt { first, count } => {
            let found = capture::decode_capture(given)?;
            told_if(found == Capture { first, count })?;
        }
        Call::CaptureOf { notes } => match given.split_at_checked(notes) {
            Some((notes, records)) => fill(notes, records, room)?,
            None => return Err(Failure::NotAsTold),
        },
        Call::Miscompare => status::encode_drive_status(DriveStatus::HeaderMiscompare, room)?,
        Call::NoTarget => status::encode_response(NO_TARGET, room)?,
        Call::Parts => capture::encode_record(PARTS, room)?,
    }
    Ok(())
}

const NO_TARGET: Response = Response {
    reset_complete: false,
    alternate_port_priority_select: false,
    invalid_bus_control: false,
    invalid_parameter: false,
    unsupported_bus_control: false,
    bus_control_context: true,
};

const PARTS: Record = Record {
    tick: 0x0102,
    port: 3,
    kind: 4,
    a0: 5,
    a1: 6,
    a2: 7,
    a3: 8,
};

// The capture fills the room.
fn fill(notes: &[u8], records: &[u8], room: &mut [u8]) -> Result<(), Failure> {
    let size = capture::encode_capture(notes, records, room)?;
    told_if(size == room.len())
}

fn told_if(as_told: bool) -> Result<(), Failure> {
    if as_told {
        Ok(())
    } else {
        Err(Failure::NotAsTold)
    }
}
