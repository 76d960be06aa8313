// One event on the words of the state, and its answer.
use crate::bench::Bench;
use crate::row::{Answer, Sent};

// What stands in the answer's words before.
const UNTOUCHED: u16 = 0x5A5A;

// Accepted, with no status, no words to come, no place, no word and no response.
const NOTHING: [u16; 13] = [
    0, 0xFFFF, 0xFFFF, 0xFFFF, 0xFFFF, 0xFFFF, 0, 0, 0, 0, 0, 0, 0,
];

// Is the event, as a run of one record, given the answer? A refusal changes nothing: it is tried on a copy, which must stay as it is.
pub(crate) fn is_answered(bench: &mut Bench, sent: Sent) -> bool {
    let before = *bench;
    let given = is_given(bench, sent);
    match sent.answer {
        Answer::Refused(_) => {
            let unchanged = *bench == before;
            *bench = before;
            given & unchanged
        }
        _ => given,
    }
}

fn is_given(bench: &mut Bench, sent: Sent) -> bool {
    let record = sent.record;
    let mut told = [UNTOUCHED; 13];
    let refusal = pantoglide::pg_run(
        &mut bench.state,
        &record,
        &mut bench.sectors,
        &mut bench.staging,
        &mut told,
    );
    (refusal == 0) & (told == answer_words(sent.answer))
}

// The 13 words of the answer, as the header of the archive says.
fn answer_words(answer: Answer) -> [u16; 13] {
    let mut words = NOTHING;
    match answer {
        Answer::Done => {}
        Answer::Refused(number) => words[0] = number,
        Answer::Status(status) => words[1] = status,
        Answer::Opened(count, place) => {
            let [cylinder, head, sector] = place;
            words[2] = count;
            words[3] = cylinder;
            words[4] = head;
            words[5] = sector;
        }
        Answer::Word(word) => {
            words[6] = 1;
            words[7] = word;
        }
        Answer::LastWord(word) => {
            words[1] = 0;
            words[6] = 1;
            words[7] = word;
        }
        Answer::Response(octets) => {
            let [octet0, octet1, octet2] = octets;
            words[1] = 0;
            words[8] = 1;
            words[9] = u16::from_be_bytes([octet0, octet1]);
            words[10] = u16::from_be_bytes([octet2, 0]);
        }
    }
    words
}
