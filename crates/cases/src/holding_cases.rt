// Who holds the drive, and what goes pending: holds, takeovers, resets and the status response.
use crate::bench;
use crate::row::Answer::{Done, Opened, Refused, Response, Status};
use crate::row::{Case, Row};
use crate::tally::Tally;

pub(crate) fn run(tally: Tally) -> Tally {
    bench::runs(tally, &CASES)
}

const CASES: [Case; 10] = [
    Case {
        name: "Deselect without a hold frees the drive",
        rows: &[Row::Select(0, 0x30, Done), Row::Deselect(0, Done)],
        owner: None,
        place: [0, 0, 0],
    },
    Case {
        name: "a plain hold stands against bit 0 or bit 1 alone",
        rows: &[
            Row::Select(0, 0x32, Done),
            Row::Deselect(0, Done),
            Row::Select(1, 0x30, Refused(6)),
            Row::Select(1, 0x31, Refused(6)),
            Row::Select(1, 0x32, Refused(6)),
        ],
        owner: Some(0),
        place: [0, 0, 0],
    },
    Case {
        name: "takeover of a plain hold with a write open",
        rows: &[
            // "its selection, hold and open transfer are gone"; "Takeover leaves the position."
            Row::Select(0, 0x32, Done),
            Row::Position(0, [1, 1, 1], Status(0)),
            Row::DataControl(0, 0x89, Opened(3, [1, 1, 1])),
            Row::WordFromHost(0, 7, Done),
            Row::WordFromHost(0, 0xAA, Done),
            Row::Select(1, 0x33, Done),
            Row::WordFromHost(0, 0xBB, Refused(2)),
            Row::WordFromHost(1, 0xBB, Refused(7)),
            Row::ReadStatus(1, Response([0, 0, 0])),
            Row::Deselect(1, Done),
            Row::Select(0, 0x33, Refused(6)),
        ],
        owner: Some(1),
        place: [1, 1, 1],
    },
    Case {
        name: "a strong hold stands, and a plain one replaces it",
        rows: &[
            // "replacing an older hold by the same port"
            Row::Select(0, 0x33, Done),
            Row::Select(1, 0x33, Refused(6)),
            Row::Deselect(0, Done),
            Row::Select(1, 0x33, Refused(6)),
            Row::Select(0, 0x32, Done),
            Row::Deselect(0, Done),
            Row::Select(1, 0x31, Refused(6)),
            Row::Select(1, 0x33, Done),
        ],
        owner: Some(1),
        place: [0, 0, 0],
    },
    Case {
        name: "a selection without bit 1 gives the hold up",
        rows: &[
            Row::Select(0, 0x33, Done),
            Row::Deselect(0, Done),
            Row::Select(0, 0x31, Done),
            Row::Deselect(0, Done),
            Row::Select(1, 0x30, Done),
        ],
        owner: Some(1),
        place: [0, 0, 0],
    },
    Case {
        name: "the loser's notice stays until it is read",
        rows: &[
            // "any pending bit in response octet 1 gives C and changes nothing"
            Row::Select(0, 0x30, Done),
            Row::Select(1, 0x31, Done),
            Row::Deselect(1, Done),
            Row::Select(0, 0x30, Done),
            Row::Deselect(0, Done),
            Row::Select(0, 0x30, Done),
            Row::Position(0, [1, 1, 1], Status(0xC)),
            Row::Target(0, 3, Status(0xC)),
            Row::DataControl(0, 0xD0, Status(0xC)),
            Row::DataControl(0, 0x90, Status(0xC)),
            Row::ReadStatus(0, Response([0x40, 0x40, 0])),
            Row::DataControl(0, 0xC1, Opened(2, [0, 0, 0])),
        ],
        owner: Some(0),
        place: [0, 0, 0],
    },
    Case {
        name: "reset from the unselected port",
        rows: &[
            // "nobody selected, no hold, no transfer, position 0/0/0, target FFFF"
            Row::Select(0, 0x33, Done),
            Row::Target(0, 1, Status(0)),
            Row::Position(0, [1, 1, 1], Status(0)),
            Row::DataControl(0, 0x89, Opened(3, [1, 1, 1])),
            Row::WordFromHost(0, 7, Done),
            Row::Reset(1, Done),
            Row::WordFromHost(0, 0xAA, Refused(2)),
            Row::Select(1, 0x30, Done),
            Row::ReadStatus(1, Response([0x40, 0x80, 0])),
            Row::DataControl(1, 0x8C, Status(8)),
        ],
        owner: Some(1),
        place: [0, 0, 0],
    },
    Case {
        name: "pending on both ports, read by each",
        rows: &[
            // "Read status answers 0 with the octets and clears that port's"
            Row::Reset(0, Done),
            Row::Select(0, 0x30, Done),
            Row::DataControl(0, 0xC1, Status(0xC)),
            Row::ReadStatus(0, Response([0x40, 0x80, 0])),
            Row::DataControl(0, 0x80, Status(8)),
            Row::Deselect(0, Done),
            Row::Select(1, 0x30, Done),
            Row::DataControl(1, 0xC1, Status(0xC)),
            Row::ReadStatus(1, Response([0x40, 0x80, 0])),
            Row::ReadStatus(1, Response([0, 0, 0])),
            Row::Deselect(1, Done),
            Row::Select(0, 0x30, Done),
            Row::ReadStatus(0, Response([0x20, 0, 0x20])),
        ],
        owner: Some(0),
        place: [0, 0, 0],
    },
    Case {
        name: "a bad request and a takeover pending together",
        rows: &[
            // "Octet 0: bit 6 if octet 1 is not zero, bit 5 if octet 2 is not zero."
            Row::Select(1, 0x30, Done),
            Row::DataControl(1, 0xD0, Status(8)),
            Row::Select(0, 0x31, Done),
            Row::Deselect(0, Done),
            Row::Select(1, 0x30, Done),
            Row::ReadStatus(1, Response([0x60, 0x40, 0x80])),
        ],
        owner: Some(1),
        place: [0, 0, 0],
    },
    Case {
        name: "after a reset exactly Reset Complete is pending",
        rows: &[
            Row::Select(0, 0x30, Done),
            Row::DataControl(0, 0xD0, Status(8)),
            Row::Select(1, 0x31, Done),
            Row::Reset(1, Done),
            Row::Select(0, 0x30, Done),
            Row::ReadStatus(0, Response([0x40, 0x80, 0])),
        ],
        owner: Some(0),
        place: [0, 0, 0],
    },
];
