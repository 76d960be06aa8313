// The answer to an event, and the drive after it.
use crate::drive::Drive;
use parts::Place;
use refusals::Refusal;
use status::DriveStatus;

#[derive(Clone, Copy, Debug, PartialEq, Eq)]
pub enum Answer {
    // Nothing changed.
    Refused(Refusal),
    // Kinds 1, 2 and 10, and a word of a write before its last.
    Done,
    Status(DriveStatus),
    // A transfer opens: the words to come, and the place.
    Opened(u16, Place),
    // The next word of a read, and the last one, with status 0.
    Word(u16),
    LastWord(u16),
    // Octets 0, 1 and 2 of the status response, with status 0; the other five are 0.
    Response(u8, u8, u8),
}

#[derive(Clone, Copy, Debug, PartialEq, Eq)]
pub struct Outcome {
    pub answer: Answer,
    pub drive: Drive,
}
