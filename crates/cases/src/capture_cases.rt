// Records and captures, both ways, with refusals 8, 10, 12, 13 and 14. The mark 49 50 49 32 is "IPI2".
use crate::calls::Call;
use crate::octets;
use crate::octets::{Case, Row};
use crate::tally::Tally;

pub(crate) fn run(tally: Tally) -> Tally {
    octets::runs(tally, &CASES)
}

const CASES: [Case; 10] = [
    Case {
        name: "record 00 05 01 01 30, both ways",
        rows: &[
            Row {
                call: Call::Record,
                given: b"\x00\x05\x01\x01\x30\x00\x00\x00",
                refusal: None,
                room: b"\x00\x05\x01\x01\x30\x00\x00\x00\xFF",
            },
            Row {
                call: Call::Parts,
                given: b"",
                refusal: None,
                room: b"\x01\x02\x03\x04\x05\x06\x07\x08\xFF",
            },
            Row {
                call: Call::Record,
                given: b"\x01\x02\x03\x04\x05\x06\x07\x08",
                refusal: None,
                room: b"\x01\x02\x03\x04\x05\x06\x07\x08\xFF",
            },
        ],
    },
    Case {
        name: "refusal 10: a record of 7 octets",
        rows: &[
            Row {
                call: Call::Record,
                given: b"\x00\x05\x01\x01\x30\x00\x00\x00",
                refusal: Some(10),
                room: b"\xFF\xFF\xFF\xFF\xFF\xFF\xFF",
            },
            Row {
                call: Call::Record,
                given: b"\x00\x05\x01\x01\x30\x00\x00",
                refusal: Some(10),
                room: b"\xFF\xFF\xFF\xFF\xFF\xFF\xFF\xFF",
            },
        ],
    },
    Case {
        name: "capture of three events, both ways",
        rows: &[
            Row {
                call: Call::Capture,
                given: b"\x00\x00\x00\x01\x30\x00\x00\x00\x00\x05\x01\x01\x30\x00\x00\x00\x00\x09\x00\x02\x00\x00\x00\x00\x00\x00\x00\x18\x49\x50\x49\x32",
                refusal: None,
                room: b"\x00\x00\x00\x01\x30\x00\x00\x00\x00\x05\x01\x01\x30\x00\x00\x00\x00\x09\x00\x02\x00\x00\x00\x00\x00\x00\x00\x18\x49\x50\x49\x32",
            },
            Row {
                call: Call::CaptureAt { first: 0, count: 3 },
                given: b"\x00\x00\x00\x01\x30\x00\x00\x00\x00\x05\x01\x01\x30\x00\x00\x00\x00\x09\x00\x02\x00\x00\x00\x00\x00\x00\x00\x18\x49\x50\x49\x32",
                refusal: None,
                room: b"",
            },
        ],
    },
    Case {
        name: "bench notes before the first record",
        rows: &[
            Row {
                call: Call::Capture,
                given: b"\x6F\x6B\x00\x05\x01\x01\x30\x00\x00\x00\x00\x00\x00\x08\x49\x50\x49\x32",
                refusal: None,
                room: b"\x6F\x6B\x00\x05\x01\x01\x30\x00\x00\x00\x00\x00\x00\x08\x49\x50\x49\x32",
            },
            Row {
                call: Call::CaptureAt { first: 2, count: 1 },
                given: b"\x6F\x6B\x00\x05\x01\x01\x30\x00\x00\x00\x00\x00\x00\x08\x49\x50\x49\x32",
                refusal: None,
                room: b"",
            },
        ],
    },
    Case {
        name: "refusal 12: a capture under 8 octets",
        rows: &[
            Row {
                call: Call::CaptureAt { first: 0, count: 0 },
                given: b"",
                refusal: Some(12),
                room: b"",
            },
            Row {
                call: Call::CaptureAt { first: 0, count: 0 },
                given: b"\x00\x00\x00\x49\x50\x49\x32",
                refusal: Some(12),
                room: b"",
            },
        ],
    },
    Case {
        name: "refusal 13: a wrong trailer mark",
        rows: &[
            Row {
                call: Call::CaptureAt { first: 0, count: 0 },
                given: b"\x00\x00\x00\x00\x49\x50\x49\x33",
                refusal: Some(13),
                room: b"",
            },
            Row {
                call: Call::CaptureAt { first: 0, count: 0 },
                given: b"\x00\x00\x00\x07\x49\x50\x49\x33",
                refusal: Some(13),
                room: b"",
            },
        ],
    },
    Case {
        name: "refusal 14: a wrong trailer distance",
        rows: &[
            Row {
                call: Call::CaptureAt { first: 0, count: 0 },
                given: b"\x00\x00\x00\x07\x49\x50\x49\x32",
                refusal: Some(14),
                room: b"",
            },
            Row {
                call: Call::CaptureAt { first: 0, count: 0 },
                given: b"\x00\x00\x00\x08\x49\x50\x49\x32",
                refusal: Some(14),
                room: b"",
            },
            Row {
                call: Call::CaptureAt { first: 0, count: 0 },
                given: b"\x6E\x6F\x74\x65\x73\x20\x6F\x6E\x00\x00\x00\x07\x49\x50\x49\x32",
                refusal: Some(14),
                room: b"",
            },
            Row {
                call: Call::CaptureAt { first: 0, count: 0 },
                given: b"\x6E\x6F\x74\x65\x73\x20\x6F\x6E\x00\x00\x00\x10\x49\x50\x49\x32",
                refusal: Some(14),
                room: b"",
            },
            Row {
                call: Call::CaptureAt { first: 0, count: 0 },
                given: b"\x00\x00\x00\x00\x49\x50\x49\x32",
                refusal: None,
                room: b"",
            },
        ],
    },
    Case {
        name: "refusal 8: records that are not whole",
        rows: &[Row {
            call: Call::CaptureOf { notes: 0 },
            given: b"\x00\x05\x01\x01\x30\x00\x00",
            refusal: Some(8),
            room: b"\xFF\xFF\xFF\xFF\xFF\xFF\xFF\xFF\xFF\xFF\xFF\xFF\xFF\xFF\xFF\xFF",
        }],
    },
    Case {
        name: "refusal 10: no room for a capture",
        rows: &[
            Row {
                call: Call::CaptureOf { notes: 1 },
                given: b"\x21\x00\x05\x01\x01\x30\x00\x00\x00",
                refusal: Some(10),
                room: b"\xFF\xFF\xFF\xFF\xFF\xFF\xFF\xFF\xFF\xFF\xFF\xFF\xFF\xFF\xFF\xFF",
            },
            Row {
                call: Call::CaptureOf { notes: 2 },
                given: b"\x21\x21\x00\x05\x01\x01\x30\x00\x00",
                refusal: Some(10),
                room: b"\xFF\xFF\xFF\xFF\xFF\xFF\xFF\xFF\xFF\xFF\xFF\xFF\xFF\xFF\xFF\xFF",
            },
        ],
    },
    Case {
        name: "notes and records of 8 octets each",
        rows: &[Row {
            call: Call::CaptureOf { notes: 8 },
            given: b"\x6E\x6F\x74\x65\x64\x20\x6F\x6E\x00\x05\x01\x01\x30\x00\x00\x00",
            refusal: None,
            room: b"\x6E\x6F\x74\x65\x64\x20\x6F\x6E\x00\x05\x01\x01\x30\x00\x00\x00\x00\x00\x00\x08\x49\x50\x49\x32",
        }],
    },
];
