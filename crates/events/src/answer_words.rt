// The answer as 13 words, at the front of a lent slice, which C lends: the answers of a batch stand one behind the other in it.
ghost use Rattle.std.specs.Prelude.{◌≡◌, true, ◌/◌, ◌%◌, ◌≤◌, length};
ghost use Rattle.laws.specs.Lists.{written_over};
ghost use Rattle.drive.specs.AnswerWords.{answer_words, accepted_in, answer_in};
ghost use Rattle.drive.specs.declared.answer.Answer.TheVariants as answer;
ghost use Rattle.status.specs.DriveStatus.{is_drive_status, status_of};
ghost use Rattle.refusals.specs.Refusal.{refusal_in};
ghost use Rattle.events.specs.Turn.{Telling, Told};

use crate::state;
use drive::Answer;
use parts::Place;
use refusals::Refusal;
use status::DriveStatus;

// How many words an answer has.
pub const ANSWER_WORDS: usize = 13;

// In the place of a part that the answer does not have, as the header tells C: a word and no Option.
pub const ABSENT: u16 = 0xFFFF;

// The words of the answer. A refusal that is not to tell writes nothing, and is handed back. Inlined: an answer that is handed to a call is packed
// first, which makes half as many instructions again of a record in a batch.
#[inline(always)]
pub(crate) fn tell(answer: Answer, telling: bool, out: &mut [u16]) -> Result<(), Refusal>
    requires { 13 ≤ length out.old }
    ensures { Telling telling answer out.old (refusal_in result) out.new }
{
    match answer {
        Answer::Refused(refusal) => {
            if !telling {
                return Err(refusal);
            }
            put_refused(refusal, out);
            Ok(())
        }
        Answer::Done => {
            put_done(out);
            Ok(())
        }
        Answer::Status(status) => {
            put_status(status, out);
            Ok(())
        }
        Answer::Opened(words, place) => {
            put_opened(words, place, out);
            Ok(())
        }
        Answer::Word(word) => {
            put_word(word, out);
            Ok(())
        }
        Answer::LastWord(word) => {
            put_last_word(word, out);
            Ok(())
        }
        Answer::Response(octet0, octet1, octet2) => {
            put_response(octet0, octet1, octet2, out);
            Ok(())
        }
    }
}

pub(crate) fn put_refused(refusal: Refusal, out: &mut [u16])
    requires { 13 ≤ length out.old }
    ensures { out.new ≡ written_over out.old (answer_words (answer.Refused refusal)) }
{
    put_done(out);
    out[0] = u8::from(refusal) as u16;
}

fn put_status(status: DriveStatus, out: &mut [u16])
    requires { 13 ≤ length out.old }
    ensures { out.new ≡ written_over out.old (answer_words (answer.Status status)) }
{
    put_done(out);
    out[1] = u8::from(status) as u16;
}

fn put_opened(words: u16, place: Place, out: &mut [u16])
    requires { 13 ≤ length out.old }
    ensures { out.new ≡ written_over out.old (answer_words (answer.Opened words place)) }
{
    put_done(out);
    out[2] = words;
    out[3] = place.cylinder;
    out[4] = place.head;
    out[5] = place.sector;
}

fn put_word(word: u16, out: &mut [u16])
    requires { 13 ≤ length out.old }
    ensures { out.new ≡ written_over out.old (answer_words (answer.Word word)) }
{
    put_done(out);
    out[6] = 1;
    out[7] = word;
}

fn put_last_word(word: u16, out: &mut [u16])
    requires { 13 ≤ length out.old }
    ensures { out.new ≡ written_over out.old (answer_words (answer.LastWord word)) }
{
    put_done(out);
    out[1] = u8::from(DriveStatus::Normal) as u16;
    out[6] = 1;
    out[7] = word;
}

fn put_response(octet0: u8, octet1: u8, octet2: u8, out: &mut [u16])
    requires { 13 ≤ length out.old }
    ensures { out.new ≡ written_over out.old (answer_words (answer.Response octet0 octet1 octet2)) }
{
    put_done(out);
    out[1] = u8::from(DriveStatus::Normal) as u16;
    out[8] = 1;
    out[9] = state::word(octet0, octet1);
    out[10] = state::word(octet2, 0);
}

fn put_done(out: &mut [u16])
    requires { 13 ≤ length out.old }
    ensures { out.new ≡ written_over out.old (answer_words answer.Done) }
{
    out[0] = 0;
    out[1] = ABSENT;
    out[2] = ABSENT;
    out[3] = ABSENT;
    out[4] = ABSENT;
    out[5] = ABSENT;
    out[6] = 0;
    out[7] = 0;
    out[8] = 0;
    out[9] = 0;
    out[10] = 0;
    out[11] = 0;
    out[12] = 0;
}

// The answer that a call's refusal and its words tell.
pub(crate) fn answer_in(refused: Result<(), Refusal>, words: &[u16]) -> Answer
    requires { Told words.now }
    ensures { result ≡ answer_in (refusal_in refused) words.now }
{
    match refused {
        Ok(()) => accepted_in(words),
        Err(refusal) => Answer::Refused(refusal),
    }
}

fn accepted_in(words: &[u16]) -> Answer
    requires { Told words.now }
    ensures { result ≡ accepted_in words.now }
{
    let status = words[1];
    if words[8] == 1 {
        return response_in(words[9], words[10]);
    }
    if words[6] == 1 {
        if status == ABSENT {
            return Answer::Word(words[7]);
        }
        return Answer::LastWord(words[7]);
    }
    if status != ABSENT {
        return Answer::Status(status_in(status));
    }
    if words[2] == ABSENT {
        return Answer::Done;
    }
    let place = Place {
        cylinder: words[3],
        head: words[4],
        sector: words[5],
    };
    Answer::Opened(words[2], place)
}

fn status_in(word: u16) -> DriveStatus
    requires { is_drive_status word ≡ true }
    ensures { result ≡ status_of word }
{
    DriveStatus::try_from(word as u8).unwrap()
}

fn response_in(first: u16, second: u16) -> Answer
    ensures { result ≡ answer.Response (first / 256) (first % 256) (second / 256) }
{
    let [octet0, octet1] = first.to_be_bytes();
    let [octet2, _] = second.to_be_bytes();
    Answer::Response(octet0, octet1, octet2)
}
