// Refusals 9 and 10 of power-up, and 10 of events: numbers outside their limits, short slices.
use crate::row::Answer::{Done, Opened, Refused, Status};
use crate::row::{Case, Row};
use crate::tally::Tally;
use crate::{bench, power};

pub(crate) fn run(tally: Tally) -> Tally {
    bench::runs(tally, &CASES).case("refusal 10: a state of 20 words", is_too_short())
}

// A word less than the state has: nothing is written.
fn is_too_short() -> bool {
    let mut short = [0x5A5Au16; 20];
    let mut answer = [0u16; 13];
    let powered = power::refusal_of(&bench::AT_REST, &mut short);
    let one = pantoglide::pg_event(
        &mut short,
        0,
        10,
        0,
        0,
        0,
        0,
        &mut [0u16; 48],
        &mut [0u16; 4],
        &mut answer,
    );
    let many = pantoglide::pg_run(
        &mut short,
        &[0, 0, 0, 10, 0, 0, 0, 0],
        &mut [0u16; 48],
        &mut [0u16; 4],
        &mut answer,
    );
    (powered == 10) & (one == 10) & (many == 10) & (short == [0x5A5Au16; 20])
}

const CASES: [Case; 5] = [
    Case {
        name: "refusal 9: power-up outside the limits",
        rows: &[
            // 9 is tested before 10: the slices are too short for most of these drives.
            Row::State(0, [0, 2, 3, 1]),
            Row::State(4, [2, 1, 3, 2]),
            Row::PowerUp(Some(9)),
            Row::State(0, [0x1001, 2, 3, 1]),
            Row::State(4, [2, 1, 3, 2]),
            Row::PowerUp(Some(9)),
            Row::State(0, [2, 0, 3, 1]),
            Row::State(4, [2, 1, 3, 2]),
            Row::PowerUp(Some(9)),
            Row::State(0, [2, 0x21, 3, 1]),
            Row::State(4, [2, 1, 3, 2]),
            Row::PowerUp(Some(9)),
            Row::State(0, [2, 2, 0, 1]),
            Row::State(4, [2, 1, 3, 2]),
            Row::PowerUp(Some(9)),
            Row::State(0, [2, 2, 0x101, 1]),
            Row::State(4, [2, 1, 3, 2]),
            Row::PowerUp(Some(9)),
            Row::State(0, [2, 2, 3, 9]),
            Row::State(4, [2, 1, 3, 2]),
            Row::PowerUp(Some(9)),
            Row::State(0, [2, 2, 3, 1]),
            Row::State(4, [0, 1, 3, 2]),
            Row::PowerUp(Some(9)),
            Row::State(0, [2, 2, 3, 1]),
            Row::State(4, [0x401, 1, 3, 2]),
            Row::PowerUp(Some(9)),
            Row::State(0, [2, 2, 3, 1]),
            Row::State(4, [2, 0x401, 3, 2]),
            Row::PowerUp(Some(9)),
            Row::State(0, [2, 2, 3, 1]),
            Row::State(4, [2, 1, 8, 2]),
            Row::PowerUp(Some(9)),
            Row::AtRest,
        ],
        owner: None,
        place: [0, 0, 0],
    },
    Case {
        name: "power-up at the limits",
        rows: &[
            // The largest numbers are within the limits, so it is the slices that are too short.
            Row::State(0, [1, 1, 1, 0]),
            Row::State(4, [1, 0, 0, 2]),
            Row::PowerUp(None),
            Row::State(0, [2, 2, 3, 1]),
            Row::State(4, [2, 1, 7, 2]),
            Row::PowerUp(None),
            Row::State(0, [0x1000, 2, 3, 1]),
            Row::State(4, [2, 1, 3, 2]),
            Row::PowerUp(Some(10)),
            Row::State(0, [2, 0x20, 3, 1]),
            Row::State(4, [2, 1, 3, 2]),
            Row::PowerUp(Some(10)),
            Row::State(0, [2, 2, 0x100, 1]),
            Row::State(4, [2, 1, 3, 2]),
            Row::PowerUp(Some(10)),
            Row::State(0, [2, 2, 3, 8]),
            Row::State(4, [2, 1, 3, 2]),
            Row::PowerUp(Some(10)),
            Row::State(0, [2, 2, 3, 1]),
            Row::State(4, [0x400, 1, 3, 2]),
            Row::PowerUp(Some(10)),
            Row::State(0, [2, 2, 3, 1]),
            Row::State(4, [2, 0x400, 3, 2]),
            Row::PowerUp(Some(10)),
            Row::AtRest,
        ],
        owner: None,
        place: [0, 0, 0],
    },
    Case {
        name: "refusal 10: power-up with a short slice",
        rows: &[
            // 181 sectors of one word; one sector of 5.
            Row::State(0, [0xB5, 1, 1, 0]),
            Row::State(4, [1, 0, 3, 2]),
            Row::PowerUp(Some(10)),
            Row::State(0, [1, 1, 1, 1]),
            Row::State(4, [2, 2, 3, 2]),
            Row::PowerUp(Some(10)),
            Row::AtRest,
        ],
        owner: None,
        place: [0, 0, 0],
    },
    Case {
        name: "refusal 10: an event with a short slice",
        rows: &[
            // The same drives, then with a target of 1. Tested before 1 and 8, and after 11.
            Row::State(0, [0xB5, 1, 1, 0]),
            Row::State(4, [1, 0, 3, 2]),
            Row::Octets([2, 0, 0, 0, 0, 0], Refused(10)),
            Row::State(13, [1, 0, 0, 0]),
            Row::Octets([2, 0, 0, 0, 0, 0], Refused(11)),
            Row::AtRest,
            Row::State(0, [1, 1, 1, 1]),
            Row::State(4, [2, 2, 3, 2]),
            Row::Octets([2, 0, 0, 0, 0, 0], Refused(10)),
            Row::State(13, [1, 0, 0, 0]),
            Row::Octets([2, 0, 0, 0, 0, 0], Refused(11)),
            Row::AtRest,
        ],
        owner: None,
        place: [0, 0, 0],
    },
    Case {
        name: "a drive whose numbers all differ",
        rows: &[
            // Its 180 words are all there are. Port, kind and the four octets of the position differ too.
            Row::State(0, [3, 4, 5, 0]),
            Row::State(4, [1, 2, 6, 2]),
            Row::PowerUp(None),
            Row::Select(1, 0x60, Done),
            Row::Position(1, [2, 3, 4], Status(0)),
            Row::DataControl(1, 0x8B, Opened(3, [2, 3, 4])),
            Row::WordFromHost(1, 0x102, Done),
            Row::WordFromHost(1, 0x304, Done),
            Row::WordFromHost(1, 0x506, Status(0)),
            // The last sector's words begin with word 177, the second of these four.
            Row::Expects(176, [0, 0x102, 0x304, 0x506]),
        ],
        owner: Some(1),
        place: [2, 3, 0],
    },
];
