// Load Drive Function: Reserve, Priority Reserve, Release and the other functions. The numbers are those of the reading of M-100.
use crate::bench;
use crate::row::Answer::{Done, Opened, Refused, Response, Status};
use crate::row::{Case, Row};
use crate::tally::Tally;

pub(crate) fn run(tally: Tally) -> Tally {
    bench::runs(tally, &CASES)
}

const CASES: [Case; 8] = [
    Case {
        name: "100-1: Reserve keeps the drive between sessions",
        rows: &[
            Row::Select(0, 0x30, Done),
            Row::DataControl(0, 0x01, Opened(1, [0, 0, 0])),
            Row::WordFromHost(0, 0x1414, Status(0)),
            Row::Holds([0, 0, 1, 0]),
            Row::Deselect(0, Done),
            Row::Holds([2, 0, 1, 0]),
            Row::Select(1, 0x30, Refused(6)),
            Row::Select(1, 0x31, Refused(6)),
            Row::Select(1, 0x32, Refused(6)),
            Row::Select(1, 0x33, Done),
            Row::Holds([1, 1, 2, 0]),
            Row::Open([0, 0, 0x4000, 0]),
        ],
        owner: Some(1),
        place: [0, 0, 0],
    },
    Case {
        name: "100-2: Release, then Deselect frees the drive",
        rows: &[
            Row::Select(0, 0x32, Done),
            Row::DataControl(0, 0x01, Opened(1, [0, 0, 0])),
            Row::WordFromHost(0, 0x1515, Status(0)),
            Row::Holds([0, 0, 0, 0]),
            Row::Select(1, 0x30, Refused(6)),
            Row::Deselect(0, Done),
            Row::Holds([2, 2, 0, 0]),
            Row::Select(1, 0x30, Done),
        ],
        owner: Some(1),
        place: [0, 0, 0],
    },
    Case {
        name: "100-3: Release takes the hold at once",
        rows: &[
            // Priority Select alone takes over before the Deselect.
            Row::Select(0, 0x33, Done),
            Row::Select(1, 0x33, Refused(6)),
            Row::DataControl(0, 0x01, Opened(1, [0, 0, 0])),
            Row::WordFromHost(0, 0x1515, Status(0)),
            Row::Select(1, 0x31, Done),
            Row::Holds([1, 1, 0, 0]),
            Row::Open([0, 0, 0x4000, 0]),
            Row::Deselect(0, Refused(2)),
        ],
        owner: Some(1),
        place: [0, 0, 0],
    },
    Case {
        name: "100-5: at least a plain hold, and a strong one",
        rows: &[
            // "Reserve by the selected port makes at least a plain hold" .. "and Priority Reserve makes it strong."
            Row::Select(0, 0x33, Done),
            Row::DataControl(0, 0x01, Opened(1, [0, 0, 0])),
            Row::WordFromHost(0, 0x1414, Status(0)),
            Row::Holds([0, 0, 2, 0]),
            Row::Deselect(0, Done),
            Row::Select(0, 0x32, Done),
            Row::Holds([0, 0, 1, 0]),
            Row::DataControl(0, 0x01, Opened(1, [0, 0, 0])),
            Row::WordFromHost(0, 0x1414, Status(0)),
            Row::Holds([0, 0, 1, 0]),
            Row::DataControl(0, 0x01, Opened(1, [0, 0, 0])),
            Row::WordFromHost(0, 0x1313, Status(0)),
            Row::Holds([0, 0, 2, 0]),
        ],
        owner: Some(0),
        place: [0, 0, 0],
    },
    Case {
        name: "100-6: the port's own next selection sets the hold anew",
        rows: &[
            // "replacing an older hold by the same port": 32 keeps the reservation, 30 gives it up.
            Row::Select(0, 0x30, Done),
            Row::DataControl(0, 0x01, Opened(1, [0, 0, 0])),
            Row::WordFromHost(0, 0x1414, Status(0)),
            Row::Deselect(0, Done),
            Row::Select(0, 0x32, Done),
            Row::Holds([0, 0, 1, 0]),
            Row::Deselect(0, Done),
            Row::Select(0, 0x30, Done),
            Row::Holds([0, 0, 0, 0]),
            Row::Deselect(0, Done),
            Row::Holds([2, 2, 0, 0]),
        ],
        owner: None,
        place: [0, 0, 0],
    },
    Case {
        name: "100-7: function code octets that differ",
        rows: &[
            Row::Select(0, 0x30, Done),
            Row::DataControl(0, 0x01, Opened(1, [0, 0, 0])),
            Row::WordFromHost(0, 0x1413, Status(8)),
            Row::Holds([0, 0, 0, 0]),
            Row::Open([0, 0, 0x40, 0]),
            Row::ReadStatus(0, Response([0x20, 0, 0x40])),
        ],
        owner: Some(0),
        place: [0, 0, 0],
    },
    Case {
        name: "100-8: functions not listed, and functions that act on more",
        rows: &[
            // Bit 6 and bit 5; each is gone at the next opening.
            Row::Select(0, 0x30, Done),
            Row::DataControl(0, 0x01, Opened(1, [0, 0, 0])),
            Row::WordFromHost(0, 0x1717, Status(8)),
            Row::Open([0, 0, 0x40, 0]),
            Row::DataControl(0, 0x01, Opened(1, [0, 0, 0])),
            Row::WordFromHost(0, 0x2222, Status(8)),
            Row::Open([0, 0, 0x20, 0]),
            Row::ReadStatus(0, Response([0x20, 0, 0x20])),
            Row::DataControl(0, 0x01, Opened(1, [0, 0, 0])),
            Row::WordFromHost(0, 0x1010, Status(8)),
            Row::ReadStatus(0, Response([0x20, 0, 0x20])),
            Row::DataControl(0, 0x01, Opened(1, [0, 0, 0])),
            Row::WordFromHost(0, 0, Status(8)),
            Row::ReadStatus(0, Response([0x20, 0, 0x40])),
        ],
        owner: Some(0),
        place: [0, 0, 0],
    },
    Case {
        name: "100-10: No Operation and Recalibrate",
        rows: &[
            Row::Select(0, 0x30, Done),
            Row::Position(0, [1, 1, 2], Status(0)),
            Row::DataControl(0, 0x01, Opened(1, [1, 1, 2])),
            Row::WordFromHost(0, 0x2020, Status(0)),
            Row::Holds([0, 0, 0, 1]),
            Row::Stands([1, 1, 2, 0xFFFF]),
            Row::DataControl(0, 0x01, Opened(1, [1, 1, 2])),
            Row::WordFromHost(0, 0x2828, Status(0)),
            Row::Stands([0, 1, 2, 0xFFFF]),
        ],
        owner: Some(0),
        place: [0, 1, 2],
    },
];
