// Data controls, positions and targets: the bench cases of document 01 that are not marked P, and further ones.
use crate::bench;
use crate::row::Answer::{Done, LastWord, Opened, Refused, Response, Status, Word};
use crate::row::{Case, Row};
use crate::tally::Tally;

pub(crate) fn run(tally: Tally) -> Tally {
    bench::runs(tally, &CASES)
}

const CASES: [Case; 13] = [
    Case {
        name: "power-up: at rest",
        rows: &[],
        owner: None,
        place: [0, 0, 0],
    },
    Case {
        name: "8C with target FFFF",
        rows: &[
            // "8C with target FFFF: 8, response 20 00 10."
            Row::Select(0, 0x30, Done),
            Row::DataControl(0, 0x8C, Status(8)),
            Row::ReadStatus(0, Response([0x20, 0, 0x10])),
        ],
        owner: Some(0),
        place: [0, 0, 0],
    },
    Case {
        name: "Step Head from head 1: head 0",
        rows: &[
            // "Step Head from head 1: head 0."
            Row::Select(0, 0x30, Done),
            Row::Position(0, [1, 1, 2], Status(0)),
            Row::DataControl(0, 0x90, Status(0)),
        ],
        owner: Some(0),
        place: [1, 0, 2],
    },
    Case {
        name: "Position 2/0/0",
        rows: &[
            // "Position 2/0/0: 8, response 20 00 40."
            Row::Select(0, 0x30, Done),
            Row::Position(0, [2, 0, 0], Status(8)),
            Row::ReadStatus(0, Response([0x20, 0, 0x40])),
        ],
        owner: Some(0),
        place: [0, 0, 0],
    },
    Case {
        name: "Step Head from head 0: head 1",
        rows: &[
            Row::Select(0, 0x30, Done),
            Row::Position(0, [1, 0, 2], Status(0)),
            Row::DataControl(0, 0x90, Status(0)),
        ],
        owner: Some(0),
        place: [1, 1, 2],
    },
    Case {
        name: "Target 3, and back to FFFF",
        rows: &[
            // A target outside the drive leaves the one that was set.
            Row::Select(0, 0x30, Done),
            Row::Target(0, 2, Status(0)),
            Row::Target(0, 3, Status(8)),
            Row::ReadStatus(0, Response([0x20, 0, 0x40])),
            Row::DataControl(0, 0xCC, Opened(1, [0, 0, 2])),
            Row::Take(0, LastWord(0)),
            Row::Target(0, 0xFFFF, Status(0)),
            Row::DataControl(0, 0xCC, Status(8)),
        ],
        owner: Some(0),
        place: [0, 0, 0],
    },
    Case {
        name: "write at the target, twice",
        rows: &[
            // The target becomes the position, and stays the target.
            Row::Select(0, 0x30, Done),
            Row::Target(0, 2, Status(0)),
            Row::DataControl(0, 0x8F, Opened(4, [0, 0, 2])),
            Row::WordFromHost(0, 7, Done),
            Row::WordFromHost(0, 0xAA, Done),
            Row::WordFromHost(0, 0xBB, Done),
            Row::WordFromHost(0, 0xCC, Status(0)),
            Row::DataControl(0, 0x8C, Opened(1, [0, 0, 2])),
            Row::WordFromHost(0, 9, Status(0)),
            Row::Expects(8, [9, 0xAA, 0xBB, 0xCC]),
        ],
        owner: Some(0),
        place: [0, 0, 0],
    },
    Case {
        name: "read at the target",
        rows: &[
            Row::Stored(40, [7, 0xAA, 0xBB, 0xCC]),
            Row::Expects(40, [7, 0xAA, 0xBB, 0xCC]),
            Row::Select(0, 0x30, Done),
            Row::Position(0, [1, 1, 0], Status(0)),
            Row::Target(0, 1, Status(0)),
            Row::DataControl(0, 0xCF, Opened(4, [1, 1, 1])),
            Row::Take(0, Word(7)),
            Row::Take(0, Word(0xAA)),
            Row::Take(0, Word(0xBB)),
            Row::Take(0, LastWord(0xCC)),
        ],
        owner: Some(0),
        place: [1, 1, 2],
    },
    Case {
        name: "C0, C4 and D4: no words to come",
        rows: &[
            // "No words to come: it ends at once, with status 0 alone", and the sector becomes the next.
            Row::Select(0, 0x30, Done),
            Row::DataControl(0, 0xC0, Status(0)),
            Row::End(0, Refused(7)),
            Row::DataControl(0, 0xC4, Status(0)),
            Row::DataControl(0, 0xC1, Opened(2, [0, 0, 2])),
            Row::End(0, Status(0)),
            Row::DataControl(0, 0xD4, Status(0)),
        ],
        owner: Some(0),
        place: [0, 0, 1],
    },
    Case {
        name: "9B and DB do what 8B and CB do",
        rows: &[
            // "bit 4 changes nothing except that 90 is Step Head .. and D0 is reserved"
            Row::Select(0, 0x30, Done),
            Row::DataControl(0, 0x9B, Opened(4, [0, 0, 0])),
            Row::WordFromHost(0, 7, Done),
            Row::WordFromHost(0, 0xAA, Done),
            Row::WordFromHost(0, 0xBB, Done),
            Row::WordFromHost(0, 0xCC, Status(0)),
            Row::Position(0, [0, 0, 0], Status(0)),
            Row::DataControl(0, 0xDB, Opened(4, [0, 0, 0])),
            Row::Take(0, Word(7)),
            Row::Take(0, Word(0xAA)),
            Row::Take(0, Word(0xBB)),
            Row::Take(0, LastWord(0xCC)),
            Row::Expects(0, [7, 0xAA, 0xBB, 0xCC]),
        ],
        owner: Some(0),
        place: [0, 0, 1],
    },
    Case {
        name: "D0 and controls outside 80-9F and C0-DF",
        rows: &[
            // "D0 and controls outside 80–9F and C0–DF: bit 7."
            Row::Select(0, 0x30, Done),
            Row::DataControl(0, 0xD0, Status(8)),
            Row::ReadStatus(0, Response([0x20, 0, 0x80])),
            Row::DataControl(0, 0x00, Status(8)),
            Row::DataControl(0, 0x7F, Status(8)),
            Row::DataControl(0, 0xA0, Status(8)),
            Row::DataControl(0, 0xBF, Status(8)),
            Row::DataControl(0, 0xE0, Status(8)),
            Row::DataControl(0, 0xFF, Status(8)),
            Row::ReadStatus(0, Response([0x20, 0, 0x80])),
            Row::ReadStatus(0, Response([0, 0, 0])),
        ],
        owner: Some(0),
        place: [0, 0, 0],
    },
    Case {
        name: "80-83 and 91-93",
        rows: &[
            // "80–83 and 91–93: bit 5."
            Row::Select(0, 0x30, Done),
            Row::DataControl(0, 0x80, Status(8)),
            Row::DataControl(0, 0x83, Status(8)),
            Row::ReadStatus(0, Response([0x20, 0, 0x20])),
            Row::DataControl(0, 0x91, Status(8)),
            Row::DataControl(0, 0x93, Status(8)),
            Row::ReadStatus(0, Response([0x20, 0, 0x20])),
        ],
        owner: Some(0),
        place: [0, 0, 0],
    },
    Case {
        name: "a head or a sector outside; each bad request leaves its own bit",
        rows: &[
            Row::Select(0, 0x30, Done),
            Row::DataControl(0, 0xD0, Status(8)),
            Row::Open([0, 0, 0x80, 0]),
            Row::Position(0, [0, 2, 0], Status(8)),
            Row::Open([0, 0, 0x40, 0]),
            Row::DataControl(0, 0x80, Status(8)),
            Row::Open([0, 0, 0x20, 0]),
            Row::Position(0, [0, 0, 3], Status(8)),
            Row::Open([0, 0, 0x40, 0]),
            Row::DataControl(0, 0x8C, Status(8)),
            Row::ReadStatus(0, Response([0x20, 0, 0x10])),
        ],
        owner: Some(0),
        place: [0, 0, 0],
    },
];
