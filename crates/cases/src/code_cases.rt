// Every code below 80 at kind 3, every function code of Load Drive Function, by the tables of the reading of M-100.
use crate::bench::{AT_REST, Bench};
use crate::event;
use crate::row::Answer::{Opened, Refused, Status};
use crate::row::Row;
use crate::tally::Tally;

// Two letters for each code in turn, as the reading has them: C for a command or R for a response and its words, or the bit of octet 2.
const CODES: [[u8; 2]; 128] = [
    *b"-7", *b"C1", *b"-5", *b"-5", *b"C2", *b"C1", *b"C1", *b"C4", *b"-7", *b"-7", *b"-7", *b"-7",
    *b"-7", *b"-7", *b"-7", *b"-7", *b"-7", *b"-7", *b"-7", *b"-7", *b"-7", *b"-7", *b"-7", *b"-7",
    *b"-7", *b"-7", *b"-7", *b"-7", *b"-7", *b"-7", *b"-7", *b"-7", *b"-7", *b"-7", *b"-7", *b"-7",
    *b"-7", *b"-7", *b"-7", *b"-7", *b"-7", *b"-7", *b"-7", *b"-7", *b"-7", *b"-7", *b"-7", *b"-7",
    *b"-7", *b"-7", *b"-7", *b"-7", *b"-7", *b"-7", *b"-7", *b"-7", *b"-7", *b"-7", *b"-7", *b"-7",
    *b"-7", *b"-7", *b"-7", *b"-7", *b"-7", *b"-5", *b"-5", *b"-5", *b"R4", *b"-5", *b"R1", *b"R5",
    *b"-5", *b"-7", *b"-7", *b"-7", *b"-7", *b"-7", *b"-7", *b"-7", *b"-7", *b"-7", *b"-7", *b"-7",
    *b"-7", *b"-7", *b"-7", *b"-7", *b"-7", *b"-7", *b"-7", *b"-7", *b"-7", *b"-7", *b"-7", *b"-7",
    *b"-7", *b"-7", *b"-7", *b"-7", *b"-7", *b"-7", *b"-7", *b"-7", *b"-7", *b"-7", *b"-7", *b"-7",
    *b"-7", *b"-7", *b"-7", *b"-7", *b"-7", *b"-7", *b"-7", *b"-7", *b"-7", *b"-7", *b"-7", *b"-7",
    *b"-7", *b"-7", *b"-7", *b"-7", *b"-7", *b"-7", *b"-7", *b"-7",
];

// An octet for a function code, 16 in a line: P for Priority Reserve, R for Reserve, L for Release, N for No Operation, Z for
// Recalibrate, or the bit of octet 2.
const FUNCTIONS: [u8; 256] = *b"\
    6666666666666666\
    555PRL5655555555\
    N6556666Z5655566\
    6666666666666666\
    6555555555566666\
    6666666666666666\
    6666666666666666\
    6666666666666666\
    6566666666666666\
    6666666666666666\
    6666666666666666\
    6666666666666666\
    6666666666666666\
    6666666666666666\
    6666666666666666\
    6666666666666666";

pub(crate) fn run(tally: Tally) -> Tally {
    tally
        .case("the 128 codes below 80 at kind 3", are_codes())
        .case("the 128 codes below 80 in a state handed in", are_handed())
        .case("the 256 function codes, with each hold", are_functions())
        .case("256 function codes whose octets differ", are_torn())
}

// ---- codes

fn are_codes() -> bool {
    (0..128)
        .zip(&CODES)
        .all(|(code, &[kind, number])| is_code(code, kind, number))
}

// The words and the position are told. Afterwards words pass one way or, where nothing opened, neither way.
fn is_code(code: u8, kind: u8, number: u8) -> bool {
    let state = selected(0, 0);
    let mut after = state;
    let mut answer = Status(8);
    if kind == b'-' {
        after[16] = bit(number);
    } else {
        after[14] = u16::from(code);
        answer = Opened(digit(number), [1, 1, 2]);
    }
    is_answered(Row::DataControl(0, code, answer), state, after)
        & ((kind == b'C') | is_answered(Row::WordFromHost(0, 0, Refused(7)), after, after))
        & ((kind == b'R') | is_answered(Row::Take(0, Refused(7)), after, after))
}

// Control 0 is no transfer, so these are from 1 on.
fn are_handed() -> bool {
    (0..128)
        .zip(&CODES)
        .skip(1)
        .all(|(code, &[kind, number])| is_handed(code, kind, number))
}

// With all its words moved it is refused, and so is one without words; with one to come it can end.
fn is_handed(code: u16, kind: u8, number: u8) -> bool {
    let words = if kind == b'-' { 0 } else { digit(number) };
    let through = selected(code, words);
    let refused = is_answered(Row::End(0, Refused(11)), through, through);
    if words == 0 {
        return refused;
    }
    refused
        & is_answered(
            Row::End(0, Status(0)),
            selected(code, words - 1),
            selected(0, 0),
        )
}

// ---- functions

fn are_functions() -> bool {
    (0u8..=255).zip(&FUNCTIONS).all(|(code, &function)| (0..3).all(|hold| is_function(
        [code, code],
        function,
        hold,
    )))
}

// The second octet is what the first lacks of 255.
fn are_torn() -> bool {
    (0u8..=255).all(|code| is_function([code, 255 - code], b'6', 1))
}

fn is_function(octets: [u8; 2], function: u8, hold: u16) -> bool {
    let mut state = selected(1, 0);
    let mut after = selected(0, 0);
    let fault = bit(function);
    state[9] = hold;
    after[9] = hold_after(function, hold);
    after[16] = fault;
    if function == b'Z' {
        after[10] = 0;
    }
    let answer = if fault == 0 { Status(0) } else { Status(8) };
    let word = u16::from_be_bytes(octets);
    is_answered(Row::WordFromHost(0, word, answer), state, after)
}

// "Reserve by the selected port makes at least a plain hold, Release by that port makes the hold none, and Priority Reserve
// makes it strong."
fn hold_after(function: u8, hold: u16) -> u16 {
    match function {
        b'P' => 2,
        b'R' => { if hold == 0 { 1 } else { hold } }
        b'L' => 0,
        _ => hold,
    }
}

// ---- states

// Port 0 is selected, at 1/1/2 with target 1, and this is open.
fn selected(control: u16, moved: u16) -> [u16; 21] {
    let mut state = AT_REST;
    state[7] = 0;
    state[8] = 0;
    state[10] = 1;
    state[11] = 1;
    state[12] = 2;
    state[13] = 1;
    state[14] = control;
    state[15] = moved;
    state
}

fn digit(octet: u8) -> u16 {
    u16::from(octet % 16)
}

// The bit of octet 2 that a digit of the tables names.
fn bit(octet: u8) -> u16 {
    match octet {
        b'5' => 0x20,
        b'6' => 0x40,
        b'7' => 0x80,
        _ => 0,
    }
}

// The event on one state gets the answer and leads to the other, and no word is staged or written.
fn is_answered(row: Row, state: [u16; 21], after: [u16; 21]) -> bool {
    let mut bench = Bench::with(state);
    let expected = Bench::with(after);
    match row.event() {
        Some(sent) => event::is_answered(&mut bench, sent) & (bench == expected),
        None => false,
    }
}
