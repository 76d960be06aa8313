// Ignored operation exceptions: a request clears octet 2 of its port first. The numbers are those of the reading of M-102.
use crate::bench;
use crate::row::Answer::{Done, Opened, Refused, Response, Status, Word};
use crate::row::{Case, Row};
use crate::tally::Tally;

pub(crate) fn run(tally: Tally) -> Tally {
    bench::runs(tally, &CASES)
}

const CASES: [Case; 6] = [
    Case {
        name: "102-1: D0, then C4, which ends at once",
        rows: &[
            // "D0 followed by C4, which ends at once, after which the response is eight zeros."
            Row::Select(0, 0x30, Done),
            Row::DataControl(0, 0xD0, Status(8)),
            Row::Open([0, 0, 0x80, 0]),
            Row::DataControl(0, 0xC4, Status(0)),
            Row::Open([0, 0, 0, 0]),
            Row::ReadStatus(0, Response([0, 0, 0])),
        ],
        owner: Some(0),
        place: [0, 0, 1],
    },
    Case {
        name: "102-2: a second bad request leaves its own bit alone",
        rows: &[
            Row::Select(0, 0x30, Done),
            Row::DataControl(0, 0xD0, Status(8)),
            Row::Position(0, [2, 0, 0], Status(8)),
            Row::Open([0, 0, 0x40, 0]),
            Row::DataControl(0, 0x8C, Status(8)),
            Row::Open([0, 0, 0x10, 0]),
            Row::ReadStatus(0, Response([0x20, 0, 0x10])),
        ],
        owner: Some(0),
        place: [0, 0, 0],
    },
    Case {
        name: "102-3: C clears nothing",
        rows: &[
            Row::Select(0, 0x30, Done),
            Row::DataControl(0, 0xD0, Status(8)),
            Row::Select(1, 0x31, Done),
            Row::Deselect(1, Done),
            Row::Select(0, 0x30, Done),
            Row::DataControl(0, 0xC1, Status(0xC)),
            Row::Position(0, [0, 0, 0], Status(0xC)),
            Row::ReadStatus(0, Response([0x60, 0x40, 0x80])),
        ],
        owner: Some(0),
        place: [0, 0, 0],
    },
    Case {
        name: "102-5: good requests clear too, but not the other port's",
        rows: &[
            Row::Select(1, 0x30, Done),
            Row::DataControl(1, 0xD0, Status(8)),
            Row::Deselect(1, Done),
            Row::Select(0, 0x30, Done),
            Row::DataControl(0, 0xD0, Status(8)),
            Row::DataControl(0, 0x90, Status(0)),
            Row::Open([0, 0, 0, 0x80]),
            Row::DataControl(0, 0xD0, Status(8)),
            Row::Target(0, 1, Status(0)),
            Row::Open([0, 0, 0, 0x80]),
            Row::DataControl(0, 0xD0, Status(8)),
            Row::Position(0, [1, 1, 1], Status(0)),
            Row::Open([0, 0, 0, 0x80]),
        ],
        owner: Some(0),
        place: [1, 1, 1],
    },
    Case {
        name: "102-6: Read Status does not clear at its opening",
        rows: &[
            Row::Select(0, 0x30, Done),
            Row::DataControl(0, 0xD0, Status(8)),
            Row::DataControl(0, 0x44, Opened(4, [0, 0, 0])),
            Row::Open([0x44, 0, 0x80, 0]),
            Row::Take(0, Word(0x2000)),
            Row::Take(0, Word(0x8000)),
            Row::End(0, Status(0)),
            Row::Open([0, 0, 0x80, 0]),
            Row::DataControl(0, 0x46, Opened(1, [0, 0, 0])),
            Row::Open([0x46, 0, 0, 0]),
        ],
        owner: Some(0),
        place: [0, 0, 0],
    },
    Case {
        name: "several bits handed in",
        rows: &[
            // A refused request leaves them all, a command's bad last word adds its own, the next request leaves its own alone.
            Row::State(7, [0, 0, 0, 0]),
            Row::State(14, [5, 0, 0xB0, 0xF0]),
            Row::Position(0, [0, 0, 0], Refused(7)),
            Row::Position(1, [0, 0, 0], Refused(2)),
            Row::Open([5, 0, 0xB0, 0xF0]),
            Row::WordFromHost(0, 2, Status(8)),
            Row::Open([0, 0, 0xF0, 0xF0]),
            Row::DataControl(0, 0x80, Status(8)),
            Row::Open([0, 0, 0x20, 0xF0]),
        ],
        owner: Some(0),
        place: [0, 0, 0],
    },
];
