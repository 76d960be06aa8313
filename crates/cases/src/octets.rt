// Octets read and written again, and the runner of these cases.
use crate::calls;
use crate::calls::{Call, Failure};
use crate::tally::Tally;

#[derive(Clone, Copy)]
pub(crate) struct Case {
    pub(crate) name: &'static str,
    pub(crate) rows: &'static [Row],
}

// What is called on which octets, the number that it is refused with, and all octets of the room that it may write to, afterwards.
#[derive(Clone, Copy)]
pub(crate) struct Row {
    pub(crate) call: Call,
    pub(crate) given: &'static [u8],
    pub(crate) refusal: Option<u8>,
    pub(crate) room: &'static [u8],
}

const ROOM: usize = 48;

// What stands in the room before.
const UNTOUCHED: u8 = 0xFF;

pub(crate) fn runs(tally: Tally, cases: &[Case]) -> Tally {
    let mut told = tally;
    for case in cases {
        told = told.case(case.name, case.rows.iter().all(is_answered));
    }
    told
}

// Is the call refused so, or not, and do these octets stand in the room? The room is the end of a longer one.
fn is_answered(row: &Row) -> bool {
    let mut all = [UNTOUCHED; ROOM];
    match all.len().checked_sub(row.room.len()) {
        Some(from) => {
            let room = &mut all[from..];
            let expected = match row.refusal {
                Some(number) => Err(Failure::Refused(number)),
                None => Ok(()),
            };
            (calls::called(row.call, row.given, room) == expected) & (&*room == row.room)
        }
        None => false,
    }
}
