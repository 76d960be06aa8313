// The follower of the lines: the bench cases of document 01, the two histories, lost, and refusals 8 and 11.
use crate::tally::Tally;
use crate::watch;
use crate::watch::{Answer, Case, HAS_HISTORY, IS_LOST, Trace};
use lines::{
    BUSACK, BUSCTL, DESEL, IDLE, MASTEND, SELECT, SLAVACK, SLAVEND, XFREND, XFRRDY, XFRRES, XFRST,
};

pub(crate) fn run(tally: Tally) -> Tally {
    watch::runs(watch::runs(tally, &CASES), &MOVES)
}

pub(crate) const CASES: [Case; 8] = [
    Case {
        name: "25 to 24 is undefined",
        // 25 to 24 is undefined
        traces: &[Trace {
            follower: IDLE,
            seen: &[
                (SELECT, Answer::Controllers),
                (SLAVACK, Answer::Drives),
                (BUSCTL, Answer::Controllers),
                (SLAVACK, Answer::Undefined),
            ],
        }],
        moves: &[(BUSCTL, SLAVACK, Answer::Undefined)],
    },
    Case {
        name: "28 to 24 is undefined",
        // 28 to 24 is undefined
        traces: &[Trace {
            follower: IDLE,
            seen: &[
                (SELECT, Answer::Controllers),
                (SLAVACK, Answer::Drives),
                (BUSCTL, Answer::Controllers),
                (BUSACK, Answer::Drives),
                (MASTEND, Answer::Controllers),
                (SLAVACK, Answer::Drives),
                (XFRRDY, Answer::Controllers),
                (SLAVACK, Answer::Undefined),
            ],
        }],
        moves: &[(XFRRDY, SLAVACK, Answer::Undefined)],
    },
    Case {
        name: "24 to 28 straight after selection is undefined",
        // 24 to 28 straight after selection: the pair is listed, only its history is missing.
        traces: &[Trace {
            follower: IDLE,
            seen: &[
                (SELECT, Answer::Controllers),
                (SLAVACK, Answer::Drives),
                (XFRRDY, Answer::Undefined),
            ],
        }],
        moves: &[(SLAVACK, XFRRDY, Answer::Controllers)],
    },
    Case {
        name: "16 to 0 is undefined unless 16 came from 0",
        // 16 to 0: one word passes, and SELECT comes from SLAVEND. IDLE from there is undefined, but the follower is IDLE.
        traces: &[Trace {
            follower: IDLE,
            seen: &[
                (SELECT, Answer::Controllers),
                (IDLE, Answer::Controllers),
                (SELECT, Answer::Controllers),
                (SLAVACK, Answer::Drives),
                (BUSCTL, Answer::Controllers),
                (BUSACK, Answer::Drives),
                (MASTEND, Answer::Controllers),
                (SLAVACK, Answer::Drives),
                (XFRRDY, Answer::Controllers),
                (XFRST, Answer::Drives),
                (XFRRES, Answer::Controllers),
                (XFREND, Answer::Drives),
                (XFRRDY, Answer::Controllers),
                (SLAVEND, Answer::Drives),
                (SELECT, Answer::Controllers),
                (IDLE, Answer::Undefined),
                (IDLE, Answer::Same),
                (SELECT, Answer::Controllers),
            ],
        }],
        moves: &[],
    },
    Case {
        name: "a repeated setting keeps the history",
        // a repeated setting keeps the history
        traces: &[Trace {
            follower: IDLE,
            seen: &[
                (SELECT, Answer::Controllers),
                (SLAVACK, Answer::Drives),
                (BUSCTL, Answer::Controllers),
                (BUSACK, Answer::Drives),
                (MASTEND, Answer::Controllers),
                (SLAVACK, Answer::Drives),
                (SLAVACK, Answer::Same),
                (XFRRDY, Answer::Controllers),
            ],
        }],
        moves: &[],
    },
    Case {
        name: "lost until 0",
        // lost until 0
        traces: &[Trace {
            follower: IDLE,
            seen: &[
                (XFRRES, Answer::Undefined),
                (XFRRES, Answer::Lost),
                (SELECT, Answer::Lost),
                (IDLE, Answer::Idle),
                (IDLE, Answer::Same),
            ],
        }],
        moves: &[],
    },
    Case {
        name: "refusal 8: a setting over 31",
        // a setting over 31
        traces: &[Trace {
            follower: IDLE,
            seen: &[
                (32, Answer::Refused(8)),
                (255, Answer::Refused(8)),
                (SELECT, Answer::Controllers),
                (SLAVACK, Answer::Drives),
            ],
        }],
        moves: &[(32, 0, Answer::Refused(8)), (0, 32, Answer::Refused(8))],
    },
    Case {
        name: "refusal 11: a follower no trace reaches",
        // a follower no trace reaches: 11 is tested before 8.
        traces: &[
            Trace {
                follower: 2,
                seen: &[(IDLE, Answer::Refused(11)), (32, Answer::Refused(11))],
            },
            Trace {
                follower: HAS_HISTORY + DESEL,
                seen: &[(IDLE, Answer::Refused(11)), (32, Answer::Refused(11))],
            },
            Trace {
                follower: IS_LOST + 1,
                seen: &[(IDLE, Answer::Refused(11)), (32, Answer::Refused(11))],
            },
        ],
        moves: &[],
    },
];

const MOVES: [Case; 1] = [Case {
    name: "moves there, and not back",
    traces: &[],
    moves: &[
        (SLAVACK, BUSCTL, Answer::Controllers),
        (BUSCTL, SLAVACK, Answer::Undefined),
        (BUSCTL, BUSACK, Answer::Drives),
        (BUSACK, BUSCTL, Answer::Undefined),
        (BUSACK, BUSACK, Answer::Same),
    ],
}];
