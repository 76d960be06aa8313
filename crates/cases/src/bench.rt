// The bench drive of document 01, and the runner of the cases of a topic.
use crate::row::{Case, Row};
use crate::tally::Tally;
use crate::{event, power};

// The words of the bench drive at rest: "Address 3; 2 cylinders, 2 heads, 3 sectors; header 1, field 1 of 2, field 2 of 1",
// "nobody selected, no hold, position 0/0/0, target FFFF hex (none, and never outside the drive), nothing pending".
pub(crate) const AT_REST: [u16; 21] = [
    2, 2, 3, 1, 2, 1, 3, 2, 2, 0, 0, 0, 0, 0xFFFF, 0, 0, 0, 0, 0, 0, 0,
];

// The words of a drive and what is lent to it. The bench drive has 48 sector words; the others are never changed.
#[derive(Clone, Copy, PartialEq)]
pub(crate) struct Bench {
    pub(crate) state: [u16; 21],
    pub(crate) sectors: [u16; 180],
    pub(crate) staging: [u16; 4],
}

pub(crate) fn runs(tally: Tally, cases: &[Case]) -> Tally {
    let mut told = tally;
    for case in cases {
        told = told.case(case.name, comes_out(case));
    }
    told
}

// One case, from power-up with all words zero.
fn comes_out(case: &Case) -> bool {
    let mut bench = Bench::with(AT_REST);
    let mut expected = [0u16; 180];
    let mut same = power::answered(None, &AT_REST);
    for &row in case.rows {
        same = same & bench.does(row, &mut expected);
    }
    let owner = case.owner.unwrap_or(NOBODY);
    same & (bench.sectors == expected)
        & (bench.state[8] == owner)
        & (&bench.state[10..13] == case.place.as_slice())
}

// The owner in the words of a state.
const NOBODY: u16 = 2;

impl Bench {
    // In this state, with all words zero.
    pub(crate) fn with(state: [u16; 21]) -> Bench {
        Bench {
            state,
            sectors: [0; 180],
            staging: [0; 4],
        }
    }

    fn does(&mut self, row: Row, expected: &mut [u16; 180]) -> bool {
        if let Some(sent) = row.event() {
            return event::is_answered(self, sent);
        }
        match row {
            Row::Stored(index, words) => put(&mut self.sectors, index, words),
            Row::Expects(index, words) => put(expected, index, words),
            Row::State(index, words) => put(&mut self.state, index, words),
            Row::AtRest => {
                let at_rest = AT_REST;
                self.state = at_rest;
                true
            }
            Row::Holds(words) => &self.state[7..11] == words.as_slice(),
            Row::Stands(words) => &self.state[10..14] == words.as_slice(),
            Row::Open(words) => &self.state[14..18] == words.as_slice(),
            Row::Kept(words) => &self.state[17..21] == words.as_slice(),
            Row::Staged(words) => self.staging == words,
            Row::PowerUp(refusal) => power::answered(refusal, &self.state),
            _ => false,
        }
    }
}

// The words go to `all` from the index on. Were all of them put there?
fn put(all: &mut [u16], index: usize, words: [u16; 4]) -> bool {
    match all.get_mut(index..index.saturating_add(4)) {
        Some(place) => {
            place.copy_from_slice(&words);
            true
        }
        None => false,
    }
}
