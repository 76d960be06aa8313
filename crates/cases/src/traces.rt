// Traces of settings, each read in one call by the table and in one plainly (M-104).
use crate::watch;
use crate::watch::{Case, Trace};

#[derive(Clone, Copy)]
pub(crate) enum Reader {
    Table,
    Plain,
}

// Longer than any trace of these cases.
const ROOM: usize = 48;

// What stands in the room before, and behind the answers afterwards.
pub(crate) const UNTOUCHED: u8 = 0xEE;

pub(crate) fn called(reader: Reader, follower: &mut [u8], trace: &[u8], answers: &mut [u8]) -> u8 {
    match reader {
        Reader::Table => pantoglide::pg_lines(follower, trace, answers),
        Reader::Plain => pantoglide::pg_lines_plain(follower, trace, answers),
    }
}

// Does each trace give its answers setting by setting, and to both readers at once?
pub(crate) fn is_read(case: &Case) -> bool {
    case.traces.iter().all(|trace| is_read_by(Reader::Table, trace)
        & is_read_by(Reader::Plain, trace))
}

// Are these the answers, with the room behind them untouched, and is the follower where the settings lead one by one?
fn is_read_by(reader: Reader, trace: &Trace) -> bool {
    let mut settings = [0; ROOM];
    let mut expected = [UNTOUCHED; ROOM];
    for (place, &(setting, _)) in settings.iter_mut().zip(trace.seen) {
        *place = setting;
    }
    for (place, &(_, answer)) in expected.iter_mut().zip(trace.seen) {
        *place = answer.number();
    }
    let mut follower = [trace.follower];
    let mut answers = [UNTOUCHED; ROOM];
    match settings.get(..trace.seen.len()) {
        Some(whole) => {
            let number = called(reader, &mut follower, whole, &mut answers);
            (number == 0)
                & (answers == expected)
                & (watch::follower_behind(trace) == Some(follower[0]))
        }
        None => false,
    }
}
