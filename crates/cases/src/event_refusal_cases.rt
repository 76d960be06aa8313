// Refusals 1 to 8 of events, each also where a row that is tested later holds.
use crate::bench;
use crate::row::Answer::{Done, LastWord, Opened, Refused, Status, Word};
use crate::row::{Case, Row};
use crate::tally::Tally;

pub(crate) fn run(tally: Tally) -> Tally {
    bench::runs(tally, &CASES)
}

const CASES: [Case; 11] = [
    Case {
        name: "refusal 1: a port that is neither 0 nor 1",
        rows: &[
            // Tested before 8.
            Row::Select(2, 0x30, Refused(1)),
            Row::Reset(255, Refused(1)),
            Row::Octets([2, 0, 1, 1, 1, 1], Refused(1)),
        ],
        owner: None,
        place: [0, 0, 0],
    },
    Case {
        name: "refusal 2: kinds 2 to 9, port not selected",
        rows: &[
            // Tested before 7, and after 8.
            Row::Select(0, 0x30, Done),
            Row::DataControl(0, 0xC1, Opened(2, [0, 0, 0])),
            Row::Deselect(1, Refused(2)),
            Row::DataControl(1, 0xC1, Refused(2)),
            Row::WordFromHost(1, 7, Refused(2)),
            Row::Take(1, Refused(2)),
            Row::End(1, Refused(2)),
            Row::Position(1, [0, 0, 1], Refused(2)),
            Row::Target(1, 1, Refused(2)),
            Row::ReadStatus(1, Refused(2)),
            Row::Octets([1, 5, 0, 0, 0, 1], Refused(8)),
            Row::Take(0, Word(0)),
        ],
        owner: Some(0),
        place: [0, 0, 0],
    },
    Case {
        name: "refusal 3: already selected",
        rows: &[
            // Tested before 4 and 5.
            Row::Select(0, 0x30, Done),
            Row::Select(0, 0x30, Refused(3)),
            Row::Select(0, 0x33, Refused(3)),
            Row::Select(0, 0xCC, Refused(3)),
        ],
        owner: Some(0),
        place: [0, 0, 0],
    },
    Case {
        name: "refusal 4: another address",
        rows: &[
            // Tested before 5 and 6.
            Row::Select(0, 0x40, Refused(4)),
            Row::Select(0, 0x20, Refused(4)),
            Row::Select(0, 0xB0, Refused(4)),
            Row::Select(0, 0x4C, Refused(4)),
            Row::Select(1, 0x30, Done),
            Row::Select(0, 0x40, Refused(4)),
        ],
        owner: Some(1),
        place: [0, 0, 0],
    },
    Case {
        name: "refusal 5: another mode",
        rows: &[
            // Tested before 6.
            Row::Select(0, 0x38, Refused(5)),
            Row::Select(0, 0x34, Refused(5)),
            Row::Select(1, 0x30, Done),
            Row::Select(0, 0x38, Refused(5)),
        ],
        owner: Some(1),
        place: [0, 0, 0],
    },
    Case {
        name: "refusal 6: busy",
        rows: &[
            // "none, granted only with bit 0"
            Row::Select(0, 0x30, Done),
            Row::Select(1, 0x30, Refused(6)),
            Row::Select(1, 0x32, Refused(6)),
            Row::Select(1, 0x31, Done),
        ],
        owner: Some(1),
        place: [0, 0, 0],
    },
    Case {
        name: "refusal 7: no transfer open",
        rows: &[
            Row::Select(0, 0x30, Done),
            Row::WordFromHost(0, 7, Refused(7)),
            Row::Take(0, Refused(7)),
            Row::End(0, Refused(7)),
        ],
        owner: Some(0),
        place: [0, 0, 0],
    },
    Case {
        name: "refusal 7: a write open",
        rows: &[
            // "2, 3, 7, 8 or 9 with one open"
            Row::Select(0, 0x30, Done),
            Row::DataControl(0, 0x88, Opened(1, [0, 0, 0])),
            Row::Take(0, Refused(7)),
            Row::Deselect(0, Refused(7)),
            Row::DataControl(0, 0xD0, Refused(7)),
            Row::Position(0, [9, 9, 9], Refused(7)),
            Row::Target(0, 9, Refused(7)),
            Row::ReadStatus(0, Refused(7)),
            Row::WordFromHost(0, 7, Status(0)),
            Row::Expects(0, [7, 0, 0, 0]),
        ],
        owner: Some(0),
        place: [0, 0, 1],
    },
    Case {
        name: "refusal 7: a read open",
        rows: &[
            // "2, 3, 7, 8 or 9 with one open"
            Row::Select(0, 0x30, Done),
            Row::DataControl(0, 0xC2, Opened(1, [0, 0, 0])),
            Row::WordFromHost(0, 7, Refused(7)),
            Row::Deselect(0, Refused(7)),
            Row::DataControl(0, 0xD0, Refused(7)),
            Row::Position(0, [9, 9, 9], Refused(7)),
            Row::Target(0, 9, Refused(7)),
            Row::ReadStatus(0, Refused(7)),
            Row::Take(0, LastWord(0)),
        ],
        owner: Some(0),
        place: [0, 0, 1],
    },
    Case {
        name: "refusal 8: no such kind",
        rows: &[
            Row::Octets([0, 0, 0, 0, 0, 0], Refused(8)),
            Row::Octets([1, 0xB, 0, 0, 0, 0], Refused(8)),
            Row::Octets([0, 0xFF, 0x30, 0, 0, 0], Refused(8)),
        ],
        owner: None,
        place: [0, 0, 0],
    },
    Case {
        name: "refusal 8: an unused argument octet",
        rows: &[
            // "kinds 1 and 3 use one, 4 and 8 two, 7 all four .., the others none"
            Row::Octets([0, 1, 0x30, 1, 0, 0], Refused(8)),
            Row::Octets([0, 1, 0x30, 0, 0, 1], Refused(8)),
            Row::Octets([0, 2, 1, 0, 0, 0], Refused(8)),
            Row::Octets([0, 3, 0xC1, 0, 1, 0], Refused(8)),
            Row::Octets([0, 4, 1, 1, 1, 0], Refused(8)),
            Row::Octets([0, 5, 0, 1, 0, 0], Refused(8)),
            Row::Octets([0, 6, 0, 0, 1, 0], Refused(8)),
            Row::Octets([0, 8, 0, 1, 0, 1], Refused(8)),
            Row::Octets([0, 9, 0, 0, 0, 1], Refused(8)),
            Row::Octets([0, 0xA, 1, 0, 0, 0], Refused(8)),
        ],
        owner: None,
        place: [0, 0, 0],
    },
];
