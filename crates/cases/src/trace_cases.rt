// Whole traces by both readers (M-104): those of the line cases, and longer ones.
use crate::line_cases::CASES;
use crate::tally::Tally;
use crate::traces;
use crate::traces::{Reader, UNTOUCHED};
use crate::watch::{Answer, Case, HAS_HISTORY, IS_LOST, Trace};
use lines::{
    BUSACK, BUSCTL, DESEL, IDLE, MAINT, MASTEND, REQUEST, SELECT, SLAVACK, SLAVEND, XFREND, XFRRDY,
    XFRRES, XFRST,
};

// No octet of a follower that a trace reaches has this bit.
const BIT_7: u8 = 128;

pub(crate) fn run(tally: Tally) -> Tally {
    let mut told = tally;
    for case in &CASES {
        let name = case.name;
        let same = traces::is_read(case);
        told = told.case(format_args!("104: {name}, by both readers"), same);
    }
    for case in &LONGER {
        told = told.case(case.name, traces::is_read(case));
    }
    told.case(
        "104: refusal 10: no follower, and room for all answers but one",
        is_too_short(Reader::Table) & is_too_short(Reader::Plain),
    )
}

const LONGER: [Case; 5] = [
    Case {
        name: "104: every listed move in a trace of 35 settings",
        // every listed move: two words pass, and a third is cut short. The plain reader's stretches are of 16 settings: the second starts
        // with a move of the drive, the third with one that needs its history.
        traces: &[Trace {
            follower: IDLE,
            seen: &[
                (IDLE, Answer::Same),
                (SELECT, Answer::Controllers),
                (SLAVACK, Answer::Drives),
                (BUSCTL, Answer::Controllers),
                (BUSACK, Answer::Drives),
                (MASTEND, Answer::Controllers),
                (SLAVACK, Answer::Drives),
                (XFRRDY, Answer::Controllers),
                (XFRST, Answer::Drives),
                (XFRRES, Answer::Controllers),
                (XFREND, Answer::Drives),
                (XFRRDY, Answer::Controllers),
                (XFRST, Answer::Drives),
                (XFRRES, Answer::Controllers),
                (XFREND, Answer::Drives),
                (XFRRDY, Answer::Controllers),
                (SLAVEND, Answer::Drives),
                (SELECT, Answer::Controllers),
                (SLAVACK, Answer::Drives),
                (BUSCTL, Answer::Controllers),
                (BUSACK, Answer::Drives),
                (MASTEND, Answer::Controllers),
                (SLAVACK, Answer::Drives),
                (XFRRDY, Answer::Controllers),
                (XFRST, Answer::Drives),
                (MASTEND, Answer::Controllers),
                (SLAVACK, Answer::Drives),
                (DESEL, Answer::Controllers),
                (IDLE, Answer::Drives),
                (REQUEST, Answer::Controllers),
                (IDLE, Answer::Controllers),
                (SELECT, Answer::Controllers),
                (IDLE, Answer::Controllers),
                (MAINT, Answer::Controllers),
                (IDLE, Answer::Controllers),
            ],
        }],
        moves: &[],
    },
    Case {
        name: "104: lost over the end of a stretch, until 0",
        // lost over the end of a stretch: the second one starts with what would be a move from IDLE.
        traces: &[Trace {
            follower: IDLE,
            seen: &[
                (SELECT, Answer::Controllers),
                (SLAVACK, Answer::Drives),
                (BUSCTL, Answer::Controllers),
                (BUSACK, Answer::Drives),
                (MASTEND, Answer::Controllers),
                (SLAVACK, Answer::Drives),
                (XFRRDY, Answer::Controllers),
                (XFRST, Answer::Drives),
                (XFRRES, Answer::Controllers),
                (XFREND, Answer::Drives),
                (XFRRDY, Answer::Controllers),
                (XFRST, Answer::Drives),
                (XFRRES, Answer::Controllers),
                (XFREND, Answer::Drives),
                (SLAVACK, Answer::Undefined),
                (XFRRDY, Answer::Lost),
                (SELECT, Answer::Lost),
                (SLAVACK, Answer::Lost),
                (IDLE, Answer::Idle),
                (IDLE, Answer::Same),
                (SELECT, Answer::Controllers),
            ],
        }],
        moves: &[],
    },
    Case {
        name: "104: refusal 8: settings over 31 in the middle",
        // settings over 31: less 32, the first two would be moves of the drive and of the controller, and the last would be IDLE.
        traces: &[Trace {
            follower: IDLE,
            seen: &[
                (SELECT, Answer::Controllers),
                (32 + SLAVACK, Answer::Refused(8)),
                (SLAVACK, Answer::Drives),
                (32 + BUSCTL, Answer::Refused(8)),
                (255, Answer::Refused(8)),
                (BUSCTL, Answer::Controllers),
                (SLAVACK, Answer::Undefined),
                (32 + IDLE, Answer::Refused(8)),
                (SELECT, Answer::Lost),
                (IDLE, Answer::Idle),
            ],
        }],
        moves: &[],
    },
    Case {
        name: "104: refusal 11: an octet with bit 7 set stays",
        // an octet with bit 7 set
        traces: &[
            Trace {
                follower: BIT_7,
                seen: &[
                    (IDLE, Answer::Refused(11)),
                    (SELECT, Answer::Refused(11)),
                    (32, Answer::Refused(11)),
                ],
            },
            Trace {
                follower: BIT_7 + IS_LOST + 5,
                seen: &[
                    (IDLE, Answer::Refused(11)),
                    (5, Answer::Refused(11)),
                    (255, Answer::Refused(11)),
                ],
            },
        ],
        moves: &[],
    },
    Case {
        name: "104: an empty trace, whatever the follower",
        // an empty trace
        traces: &[
            Trace {
                follower: IDLE,
                seen: &[],
            },
            Trace {
                follower: HAS_HISTORY + SELECT,
                seen: &[],
            },
            Trace {
                follower: IS_LOST,
                seen: &[],
            },
            Trace {
                follower: 2,
                seen: &[],
            },
            Trace {
                follower: BIT_7,
                seen: &[],
            },
        ],
        moves: &[],
    },
];

// SELECT that came from IDLE, and what may follow.
const SELECTED: u8 = 48;

const FOLLOWING: [u8; 3] = [24, 25, 27];

fn is_too_short(reader: Reader) -> bool {
    has_no_follower(reader) & has_two_answers(reader) & has_three_answers(reader)
}

fn has_no_follower(reader: Reader) -> bool {
    let mut answers = [UNTOUCHED; 3];
    let number = traces::called(reader, &mut [], &FOLLOWING, &mut answers);
    (number == 10) & (answers == [UNTOUCHED; 3])
}

// Nothing changes.
fn has_two_answers(reader: Reader) -> bool {
    let mut follower = [SELECTED; 1];
    let mut answers = [UNTOUCHED; 2];
    let number = traces::called(reader, &mut follower, &FOLLOWING, &mut answers);
    (number == 10) & (follower[0] == SELECTED) & (answers == [UNTOUCHED; 2])
}

// As many as there are settings are enough.
fn has_three_answers(reader: Reader) -> bool {
    let mut follower = [SELECTED; 1];
    let mut answers = [UNTOUCHED; 3];
    let number = traces::called(reader, &mut follower, &FOLLOWING, &mut answers);
    (number == 0) & (follower[0] == 27) & (answers == [18, 17, 18])
}
