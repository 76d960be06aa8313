// The drive status octet and the status response, both ways, with refusals 8 and 10.
use crate::calls::Call;
use crate::octets;
use crate::octets::{Case, Row};
use crate::tally::Tally;

pub(crate) fn run(tally: Tally) -> Tally {
    octets::runs(tally, &CASES)
}

const CASES: [Case; 6] = [
    Case {
        name: "drive status: the five octets, both ways",
        rows: &[
            Row {
                call: Call::DriveStatus,
                given: b"\x00",
                refusal: None,
                room: b"\x00",
            },
            Row {
                call: Call::DriveStatus,
                given: b"\x01",
                refusal: None,
                room: b"\x01",
            },
            Row {
                call: Call::DriveStatus,
                given: b"\x07",
                refusal: None,
                room: b"\x07",
            },
            Row {
                call: Call::DriveStatus,
                given: b"\x08",
                refusal: None,
                room: b"\x08",
            },
            Row {
                call: Call::DriveStatus,
                given: b"\x0C",
                refusal: None,
                room: b"\x0C",
            },
            Row {
                call: Call::Miscompare,
                given: b"",
                refusal: None,
                room: b"\x07",
            },
        ],
    },
    Case {
        name: "refusal 8: another drive status octet",
        rows: &[
            Row {
                call: Call::DriveStatus,
                given: b"\x02",
                refusal: Some(8),
                room: b"\xFF",
            },
            Row {
                call: Call::DriveStatus,
                given: b"\x10",
                refusal: Some(8),
                room: b"\xFF",
            },
            Row {
                call: Call::DriveStatus,
                given: b"\x87",
                refusal: Some(8),
                room: b"\xFF",
            },
        ],
    },
    Case {
        name: "refusal 10: no drive status octet",
        rows: &[
            Row {
                call: Call::DriveStatus,
                given: b"",
                refusal: Some(10),
                room: b"\xFF",
            },
            Row {
                call: Call::DriveStatus,
                given: b"\x01",
                refusal: Some(10),
                room: b"",
            },
        ],
    },
    Case {
        name: "status response: 20 00 10, both ways",
        rows: &[
            Row {
                call: Call::Response,
                given: b"\x20\x00\x10\x00\x00\x00\x00\x00",
                refusal: None,
                room: b"\x20\x00\x10\x00\x00\x00\x00\x00\xFF",
            },
            Row {
                call: Call::NoTarget,
                given: b"",
                refusal: None,
                room: b"\x20\x00\x10\x00\x00\x00\x00\x00\xFF",
            },
        ],
    },
    Case {
        name: "refusal 8: a response the base never sends",
        rows: &[
            Row {
                call: Call::Response,
                given: b"\x40\x20\x00\x00\x00\x00\x00\x00",
                refusal: Some(8),
                room: b"\xFF\xFF\xFF\xFF\xFF\xFF\xFF\xFF",
            },
            Row {
                call: Call::Response,
                given: b"\x20\x00\x08\x00\x00\x00\x00\x00",
                refusal: Some(8),
                room: b"\xFF\xFF\xFF\xFF\xFF\xFF\xFF\xFF",
            },
            Row {
                call: Call::Response,
                given: b"\x00\x00\x00\x01\x00\x00\x00\x00",
                refusal: Some(8),
                room: b"\xFF\xFF\xFF\xFF\xFF\xFF\xFF\xFF",
            },
            Row {
                call: Call::Response,
                given: b"\x00\x00\x00\x00\x00\x00\x00\x01",
                refusal: Some(8),
                room: b"\xFF\xFF\xFF\xFF\xFF\xFF\xFF\xFF",
            },
            Row {
                call: Call::Response,
                given: b"\x40\x00\x80\x00\x00\x00\x00\x00",
                refusal: Some(8),
                room: b"\xFF\xFF\xFF\xFF\xFF\xFF\xFF\xFF",
            },
            Row {
                call: Call::Response,
                given: b"\x00\x40\x00\x00\x00\x00\x00\x00",
                refusal: Some(8),
                room: b"\xFF\xFF\xFF\xFF\xFF\xFF\xFF\xFF",
            },
            Row {
                call: Call::Response,
                given: b"\x20\x40\x80\x00\x00\x00\x00\x00",
                refusal: Some(8),
                room: b"\xFF\xFF\xFF\xFF\xFF\xFF\xFF\xFF",
            },
            Row {
                call: Call::Response,
                given: b"\x60\x40\x80\x00\x00\x00\x00\x00",
                refusal: None,
                room: b"\x60\x40\x80\x00\x00\x00\x00\x00",
            },
            Row {
                call: Call::Response,
                given: b"\x00\x00\x00\x00\x00\x00\x00\x00",
                refusal: None,
                room: b"\x00\x00\x00\x00\x00\x00\x00\x00",
            },
        ],
    },
    Case {
        name: "refusal 10: a response of 7 octets",
        rows: &[
            Row {
                call: Call::Response,
                given: b"\x20\x00\x10\x00\x00\x00\x00\x00",
                refusal: Some(10),
                room: b"\xFF\xFF\xFF\xFF\xFF\xFF\xFF",
            },
            Row {
                call: Call::Response,
                given: b"\x20\x00\x10\x00\x00\x00\x00",
                refusal: Some(10),
                room: b"\xFF\xFF\xFF\xFF\xFF\xFF\xFF\xFF",
            },
        ],
    },
];
