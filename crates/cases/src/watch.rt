// A follower of the lines under watch, and the runner of its cases.
use crate::tally::Tally;
use lines::Move;

// A case: traces of settings, and moves with what the list of moves says of them.
#[derive(Clone, Copy)]
pub(crate) struct Case {
    pub(crate) name: &'static str,
    pub(crate) traces: &'static [Trace],
    // From the first setting to the second.
    pub(crate) moves: &'static [(u8, u8, Answer)],
}

// The octet of the follower before the trace; and the settings that it sees, each with its answer.
#[derive(Clone, Copy)]
pub(crate) struct Trace {
    pub(crate) follower: u8,
    pub(crate) seen: &'static [(u8, Answer)],
}

#[derive(Clone, Copy)]
pub(crate) enum Answer {
    Same,
    Controllers,
    Drives,
    Undefined,
    Lost,
    Idle,
    // Document 01's own number.
    Refused(u8),
}

// In the octet of a follower, beside its setting.
pub(crate) const HAS_HISTORY: u8 = 32;

pub(crate) const IS_LOST: u8 = 64;

impl Answer {
    // As the archive's header says it.
    pub(crate) fn number(self) -> u8 {
        match self {
            Answer::Same => 16,
            Answer::Controllers => 17,
            Answer::Drives => 18,
            Answer::Undefined => 19,
            Answer::Lost => 20,
            Answer::Idle => 21,
            Answer::Refused(number) => number,
        }
    }
}

pub(crate) fn runs(tally: Tally, cases: &[Case]) -> Tally {
    let mut told = tally;
    for case in cases {
        let followed = case
            .traces
            .iter()
            .all(|trace| follower_behind(trace).is_some());
        told = told.case(case.name, followed & case.moves.iter().all(is_so));
    }
    told
}

// Where the settings lead one by one, if each gets its answer. A refusal changes nothing.
pub(crate) fn follower_behind(trace: &Trace) -> Option<u8> {
    let mut follower = [trace.follower];
    for &(setting, answer) in trace.seen {
        let before = follower;
        let number = pantoglide::pg_line(&mut follower, setting);
        let stays = matches!(answer, Answer::Refused(_));
        if (number != answer.number()) | (stays & (follower != before)) {
            return None;
        }
    }
    Some(follower[0])
}

fn is_so(&(old, new, answer): &(u8, u8, Answer)) -> bool {
    let number = match lines::move_of(old, new) {
        Ok(Move::Same) => 16,
        Ok(Move::Controllers) => 17,
        Ok(Move::Drives) => 18,
        Ok(Move::Undefined) => 19,
        Err(refusal) => u8::from(refusal),
    };
    number == answer.number()
}
