// States handed in with a command or response open: the table of the reading of M-100, and what goes on from such a state.
use crate::bench;
use crate::row::Answer::{Done, LastWord, Refused, Response, Status, Word};
use crate::row::{Case, Row};
use crate::tally::Tally;

pub(crate) fn run(tally: Tally) -> Tally {
    bench::runs(tally, &CASES)
}

// Words 7 to 10 are the selected port, the owner, the hold and the cylinder, 14 to 17 the control, its words moved and what is
// pending, 18 to 20 the parameter words.
const CASES: [Case; 5] = [
    Case {
        name: "a command handed in, ended",
        rows: &[
            // No value of the parameter words is refused, and what is pending plays no part.
            Row::State(7, [0, 0, 0, 0]),
            Row::State(14, [1, 0, 0, 0]),
            Row::End(0, Status(0)),
            Row::State(14, [4, 1, 0, 0]),
            Row::State(17, [0, 0xFFFF, 0xFFFF, 0xFFFF]),
            Row::End(0, Status(0)),
            Row::Kept([0, 0, 0, 0]),
            Row::State(14, [7, 3, 0, 0]),
            Row::End(0, Status(0)),
            Row::State(14, [1, 0, 0x8000, 0]),
            Row::End(0, Status(0)),
            Row::Holds([0, 0, 0, 0]),
            Row::Stands([0, 0, 0, 0xFFFF]),
            Row::Open([0, 0, 0x8000, 0]),
        ],
        owner: Some(0),
        place: [0, 0, 0],
    },
    Case {
        name: "a response handed in, ended",
        rows: &[
            Row::State(7, [0, 0, 0, 0]),
            Row::State(14, [0x44, 3, 0, 0]),
            Row::End(0, Status(0)),
            Row::State(14, [0x47, 4, 0, 0]),
            Row::End(0, Status(0)),
            Row::Open([0, 0, 0, 0]),
        ],
        owner: Some(0),
        place: [0, 0, 0],
    },
    Case {
        name: "refusal 11: a command or response that cannot be open",
        rows: &[
            // "with nobody selected, with a control that opens none, or with all its words moved or more"
            Row::State(7, [0, 0, 0, 0]),
            Row::State(14, [1, 1, 0, 0]),
            Row::End(0, Refused(11)),
            Row::State(14, [2, 0, 0, 0]),
            Row::End(0, Refused(11)),
            Row::State(14, [7, 4, 0, 0]),
            Row::End(0, Refused(11)),
            Row::State(14, [0x44, 4, 0, 0]),
            Row::End(0, Refused(11)),
            Row::State(14, [0x47, 5, 0, 0]),
            Row::End(0, Refused(11)),
            // A control is an octet.
            Row::State(14, [0x101, 0, 0, 0]),
            Row::End(0, Refused(11)),
            Row::State(7, [2, 0, 1, 0]),
            Row::State(14, [0x46, 0, 0, 0]),
            Row::End(0, Refused(11)),
            Row::State(7, [0, 0, 0, 0]),
            Row::State(14, [0, 0, 0x1000, 0]),
            Row::ReadStatus(0, Refused(11)),
        ],
        owner: Some(0),
        place: [0, 0, 0],
    },
    Case {
        name: "parameter words that no command has sent",
        rows: &[
            // They stay until a selection.
            Row::State(7, [0, 0, 0, 0]),
            Row::State(17, [0, 0x1234, 0x5678, 0x9ABC]),
            Row::ReadStatus(0, Response([0, 0, 0])),
            Row::Kept([0, 0x1234, 0x5678, 0x9ABC]),
            Row::Select(1, 0x31, Done),
            Row::Kept([0, 0, 0, 0]),
            Row::AtRest,
            Row::State(7, [0, 0, 0, 0]),
        ],
        owner: Some(0),
        place: [0, 0, 0],
    },
    Case {
        name: "a command and a response handed in go on, C or not",
        rows: &[
            // One word of 07 is left: cylinder 1, head 1, and the target.
            Row::State(7, [0, 0, 0, 0]),
            Row::State(14, [7, 3, 0xC0F0, 0x8000]),
            Row::State(17, [0x8000, 0, 1, 1]),
            Row::WordFromHost(0, 2, Status(0)),
            Row::Stands([1, 1, 0, 2]),
            Row::Open([0, 0, 0xC0F0, 0x8000]),
            Row::Kept([0x8000, 0, 0, 0]),
            Row::State(14, [1, 0, 0xC0F0, 0x8000]),
            Row::WordFromHost(0, 0x1414, Status(0)),
            Row::Holds([0, 0, 1, 1]),
            Row::State(14, [0x47, 3, 0xC0F0, 0x8000]),
            Row::Take(0, Word(2)),
            Row::Take(0, LastWord(0)),
            Row::Open([0, 0, 0xC0F0, 0x8000]),
            Row::State(14, [0x44, 0, 0xC0F0, 0x8000]),
            Row::Take(0, Word(0x60C0)),
            Row::Take(0, Word(0xF000)),
            Row::Take(0, Word(0)),
            Row::Take(0, LastWord(0)),
            Row::Open([0, 0, 0, 0x8000]),
        ],
        owner: Some(0),
        place: [1, 1, 0],
    },
];
