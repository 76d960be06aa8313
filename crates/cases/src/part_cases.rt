// A replay that stops on request (M-103): three events, of which port 1's is refused, at the ticks FFFE, 0003 and 0009.
use crate::tally::Tally;
use crate::{bench, power};

const RECORDS: [u8; 24] = *b"\
    \xFF\xFE\x00\x01\x30\x00\x00\x00\
    \x00\x03\x01\x01\x30\x00\x00\x00\
    \x00\x09\x00\x02\x00\x00\x00\x00";

// What stands in the lent words before.
const UNTOUCHED: u16 = 0x5A5A;

pub(crate) fn run(tally: Tally) -> Tally {
    let mut state = [0u16; 21];
    let up = power::refusal_of(&bench::AT_REST, &mut state) == 0;
    let stopped = is_part(&mut state, 0, 2, 2, [0, 6], [0, 5]) & (state[8] == 0);
    let continued = is_part(&mut state, 2, 9, 1, [0, UNTOUCHED], [6, UNTOUCHED]) & (state[8] == 2);
    tally
        .case(
            "103: stopped after two events, the refused one counted",
            up & stopped,
        )
        .case(
            "103: continued, the gap to the event before included",
            continued,
        )
        .case(
            "103: a limit of 0, and a part behind the last record",
            runs_nothing(&mut state),
        )
        .case(
            "103: refusal 10, then 8, and nothing changed",
            is_too_short() & is_torn(),
        )
}

fn runs_nothing(state: &mut [u16]) -> bool {
    is_none(state, 0, 0) & is_none(state, 3, 1) & is_none(state, usize::MAX, usize::MAX)
}

fn is_none(state: &mut [u16], from: usize, limit: usize) -> bool {
    is_part(state, from, limit, 0, [UNTOUCHED; 2], [UNTOUCHED; 2])
}

// For the answers, for the gaps of records that are torn as well, and for the number.
fn is_too_short() -> bool {
    let answers = is_refused(
        10,
        2,
        &RECORDS,
        &mut [UNTOUCHED; 25],
        &mut [UNTOUCHED; 2],
        &mut [7; 1],
    );
    let gaps = is_refused(
        10,
        2,
        &RECORDS[..23],
        &mut [UNTOUCHED; 26],
        &mut [UNTOUCHED; 1],
        &mut [7; 1],
    );
    let number = is_refused(
        10,
        2,
        &RECORDS,
        &mut [UNTOUCHED; 26],
        &mut [UNTOUCHED; 2],
        &mut [],
    );
    answers & gaps & number
}

// Also where nothing would be run.
fn is_torn() -> bool {
    let some = is_refused(
        8,
        2,
        &RECORDS[..23],
        &mut [UNTOUCHED; 26],
        &mut [UNTOUCHED; 2],
        &mut [7; 1],
    );
    let none = is_refused(8, 0, &RECORDS[..23], &mut [], &mut [], &mut [7; 1]);
    some & none
}

// So many events are run, with these refusals and gaps for the first two of them.
fn is_part(
    state: &mut [u16],
    from: usize,
    limit: usize,
    count: u64,
    refusals: [u16; 2],
    gaps: [u16; 2],
) -> bool {
    let mut answers = [UNTOUCHED; 26];
    let mut told = [UNTOUCHED; 2];
    let mut ran = [u64::MAX; 1];
    let number = pantoglide::pg_replay(
        state,
        &RECORDS,
        from,
        limit,
        &mut [0u16; 48],
        &mut [0u16; 4],
        &mut answers,
        &mut told,
        &mut ran,
    );
    (number == 0)
        & (ran[0] == count)
        & (answers[0] == refusals[0])
        & (answers[13] == refusals[1])
        & (told == gaps)
}

// From the first record on, of a drive at rest.
fn is_refused(
    number: u8,
    limit: usize,
    records: &[u8],
    answers: &mut [u16],
    gaps: &mut [u16],
    ran: &mut [u64],
) -> bool {
    let mut state = [0u16; 21];
    let up = power::refusal_of(&bench::AT_REST, &mut state) == 0;
    let before = state;
    let returned = pantoglide::pg_replay(
        &mut state,
        records,
        0,
        limit,
        &mut [0u16; 48],
        &mut [0u16; 4],
        answers,
        gaps,
        ran,
    );
    up & (returned == number) & (state == before) & is_untouched(gaps) & is_seven(ran)
}

fn is_untouched(gaps: &[u16]) -> bool {
    gaps.iter().all(|&gap| gap == UNTOUCHED)
}

fn is_seven(ran: &[u64]) -> bool {
    ran.iter().all(|&count| count == 7)
}
