// Transfers: which words pass, which of them a write leaves in the sector, and where the position goes.
use crate::bench;
use crate::row::Answer::{Done, LastWord, Opened, Refused, Status, Word};
use crate::row::{Case, Row};
use crate::tally::Tally;

pub(crate) fn run(tally: Tally) -> Tally {
    bench::runs(tally, &CASES)
}

const CASES: [Case; 12] = [
    Case {
        name: "87 with a matching header",
        rows: &[
            Row::Stored(0, [7, 0, 0, 0]),
            Row::Select(0, 0x30, Done),
            Row::DataControl(0, 0x87, Opened(4, [0, 0, 0])),
            Row::WordFromHost(0, 7, Done),
            Row::WordFromHost(0, 0xAA, Done),
            Row::WordFromHost(0, 0xBB, Done),
            Row::WordFromHost(0, 0xCC, Status(0)),
            Row::Expects(0, [7, 0xAA, 0xBB, 0xCC]),
        ],
        owner: Some(0),
        place: [0, 0, 1],
    },
    Case {
        name: "87 with a differing header",
        rows: &[
            // "a header that differs ends the transfer at its last header word with 7, writing nothing"
            Row::Stored(0, [7, 0, 0, 0]),
            Row::Expects(0, [7, 0, 0, 0]),
            Row::Select(0, 0x30, Done),
            Row::DataControl(0, 0x87, Opened(4, [0, 0, 0])),
            Row::WordFromHost(0, 8, Status(7)),
            Row::WordFromHost(0, 0xAA, Refused(7)),
        ],
        owner: Some(0),
        place: [0, 0, 1],
    },
    Case {
        name: "84 compares the header and writes nothing",
        rows: &[
            // The last header word is the last word of all.
            Row::Stored(0, [7, 0, 0, 0]),
            Row::Expects(0, [7, 0, 0, 0]),
            Row::Select(0, 0x30, Done),
            Row::DataControl(0, 0x84, Opened(1, [0, 0, 0])),
            Row::WordFromHost(0, 7, Status(0)),
            Row::Position(0, [0, 0, 0], Status(0)),
            Row::DataControl(0, 0x84, Opened(1, [0, 0, 0])),
            Row::WordFromHost(0, 8, Status(7)),
        ],
        owner: Some(0),
        place: [0, 0, 1],
    },
    Case {
        name: "86: field 2 follows the header",
        rows: &[
            Row::Stored(0, [7, 0, 0, 0]),
            Row::Select(0, 0x30, Done),
            Row::DataControl(0, 0x86, Opened(2, [0, 0, 0])),
            Row::WordFromHost(0, 7, Done),
            Row::WordFromHost(0, 0xCC, Status(0)),
            Row::Expects(0, [7, 0, 0, 0xCC]),
        ],
        owner: Some(0),
        place: [0, 0, 1],
    },
    Case {
        name: "88 writes the header alone",
        rows: &[
            Row::Stored(0, [7, 0, 0, 0]),
            Row::Select(0, 0x30, Done),
            Row::DataControl(0, 0x88, Opened(1, [0, 0, 0])),
            Row::WordFromHost(0, 0xFFFF, Status(0)),
            Row::Expects(0, [0xFFFF, 0, 0, 0]),
        ],
        owner: Some(0),
        place: [0, 0, 1],
    },
    Case {
        name: "8B writes the sector at 1/0/1 and no other",
        rows: &[
            // "sectors follow by sector, then head, then cylinder": 1/0/1 is sector 7 of all, 4 words each.
            Row::Select(0, 0x30, Done),
            Row::Position(0, [1, 0, 1], Status(0)),
            Row::DataControl(0, 0x8B, Opened(4, [1, 0, 1])),
            Row::WordFromHost(0, 7, Done),
            Row::WordFromHost(0, 0xAA, Done),
            Row::WordFromHost(0, 0xBB, Done),
            Row::WordFromHost(0, 0xCC, Status(0)),
            Row::Expects(28, [7, 0xAA, 0xBB, 0xCC]),
        ],
        owner: Some(0),
        place: [1, 0, 2],
    },
    Case {
        name: "CB taken to the last word",
        rows: &[
            Row::Stored(0, [7, 0xAA, 0xBB, 0xCC]),
            Row::Expects(0, [7, 0xAA, 0xBB, 0xCC]),
            Row::Select(0, 0x30, Done),
            Row::DataControl(0, 0xCB, Opened(4, [0, 0, 0])),
            Row::Take(0, Word(7)),
            Row::Take(0, Word(0xAA)),
            Row::Take(0, Word(0xBB)),
            Row::Take(0, LastWord(0xCC)),
            Row::Take(0, Refused(7)),
        ],
        owner: Some(0),
        place: [0, 0, 1],
    },
    Case {
        name: "reads that skip the header",
        rows: &[
            // "on reads, 00 or 01 skip it"
            Row::Stored(0, [7, 0xAA, 0xBB, 0xCC]),
            Row::Expects(0, [7, 0xAA, 0xBB, 0xCC]),
            Row::Select(0, 0x30, Done),
            Row::DataControl(0, 0xC1, Opened(2, [0, 0, 0])),
            Row::Take(0, Word(0xAA)),
            Row::Take(0, LastWord(0xBB)),
            Row::Position(0, [0, 0, 0], Status(0)),
            Row::DataControl(0, 0xC6, Opened(1, [0, 0, 0])),
            Row::Take(0, LastWord(0xCC)),
            Row::Position(0, [0, 0, 0], Status(0)),
            Row::DataControl(0, 0xC3, Opened(3, [0, 0, 0])),
            Row::Take(0, Word(0xAA)),
            Row::Take(0, Word(0xBB)),
            Row::Take(0, LastWord(0xCC)),
        ],
        owner: Some(0),
        place: [0, 0, 1],
    },
    Case {
        name: "the next sector after the last is 0",
        rows: &[
            Row::Select(0, 0x30, Done),
            Row::Position(0, [1, 1, 2], Status(0)),
            Row::DataControl(0, 0xC1, Opened(2, [1, 1, 2])),
            Row::Take(0, Word(0)),
            Row::Take(0, LastWord(0)),
        ],
        owner: Some(0),
        place: [1, 1, 0],
    },
    Case {
        name: "End in the middle of a write",
        rows: &[
            Row::Stored(0, [7, 0, 0, 0]),
            Row::Expects(0, [7, 0, 0, 0]),
            Row::Select(0, 0x30, Done),
            Row::DataControl(0, 0x85, Opened(3, [0, 0, 0])),
            Row::WordFromHost(0, 7, Done),
            Row::WordFromHost(0, 0xAA, Done),
            Row::End(0, Status(0)),
            Row::End(0, Refused(7)),
        ],
        owner: Some(0),
        place: [0, 0, 1],
    },
    Case {
        name: "End in the middle of a read",
        rows: &[
            Row::Stored(0, [7, 0xAA, 0xBB, 0xCC]),
            Row::Expects(0, [7, 0xAA, 0xBB, 0xCC]),
            Row::Select(0, 0x30, Done),
            Row::DataControl(0, 0xCB, Opened(4, [0, 0, 0])),
            Row::Take(0, Word(7)),
            Row::End(0, Status(0)),
            Row::Take(0, Refused(7)),
        ],
        owner: Some(0),
        place: [0, 0, 1],
    },
    Case {
        name: "port 1 reads what port 0 wrote",
        rows: &[
            Row::Select(0, 0x30, Done),
            Row::DataControl(0, 0x89, Opened(3, [0, 0, 0])),
            Row::WordFromHost(0, 7, Done),
            Row::WordFromHost(0, 0xAA, Done),
            Row::WordFromHost(0, 0xBB, Status(0)),
            Row::Deselect(0, Done),
            Row::Select(1, 0x30, Done),
            Row::Position(1, [0, 0, 0], Status(0)),
            Row::DataControl(1, 0xC9, Opened(3, [0, 0, 0])),
            Row::Take(1, Word(7)),
            Row::Take(1, Word(0xAA)),
            Row::Take(1, LastWord(0xBB)),
            Row::Expects(0, [7, 0xAA, 0xBB, 0]),
        ],
        owner: Some(1),
        place: [0, 0, 1],
    },
];
