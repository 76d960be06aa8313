// The lines of a report: one for each event, and the owner's.
ghost use Rattle.std.specs.Prelude.{◌+◌, ◌≤◌, ◌++◌, ◌≡◌, length};
ghost use Rattle.drive.specs.Answer.{refusal_in, paper};
ghost use Rattle.bench.specs.Line.{status_text, event_fields, line_of, owner_line};
ghost use Rattle.bench.specs.Told.{status_told_by, told_line};

use crate::text;
use crate::text::Text;
use drive::Answer;
use events::ABSENT;

#[tactic(auto, unfolding(crate::specs::Line::line_of))]
pub(crate) fn put_line(text: &mut Text, number: usize, port: u8, answer: Answer)
    requires { length text.old.items + length (line_of number port answer) ≤ 163850 }
    ensures { text.new.items ≡ text.old.items ++ line_of number port answer }
{
    let refusal = refusal_of(answer);
    let status = status_text(answer);
    put_event(text, number, port, usize::from(refusal), &status);
    text.push(text::NEWLINE);
}

// The line of an event of a part, by the words that tell its answer.
#[tactic(auto, unfolding(crate::specs::Told::told_line))]
pub(crate) fn put_told_line(
    text: &mut Text,
    number: usize,
    port: u8,
    refusal: u16,
    status: u16,
    gap: u16,
)
    requires { length text.old.items + length (told_line number port refusal status gap) ≤ 163850 }
    ensures { text.new.items ≡ text.old.items ++ told_line number port refusal status gap }
{
    let told = status_told_by(status);
    put_event(text, number, port, usize::from(refusal), &told);
    text.push(text::SPACE);
    text::put_decimal(text, usize::from(gap));
    text.push(text::NEWLINE);
}

fn put_event(text: &mut Text, number: usize, port: u8, refusal: usize, status: &[u8])
    requires { length text.old.items + length (event_fields number port refusal status.now) ≤ 163850 }
    ensures { text.new.items ≡ text.old.items ++ event_fields number port refusal status.now }
{
    text::put_field(text, number);
    text::put_field(text, usize::from(port));
    text::put_field(text, refusal);
    text::put(text, status);
}

#[tactic(auto, unfolding(crate::specs::Line::owner_line, laws::specs::Pick::pick))]
pub(crate) fn put_owner(text: &mut Text, owner: u16)
    requires { length text.old.items + length (owner_line owner) ≤ 163850 }
    ensures { text.new.items ≡ text.old.items ++ owner_line owner }
{
    match owner {
        0 => text::put(text, b"owner 0\n"),
        1 => text::put(text, b"owner 1\n"),
        _ => text::put(text, b"owner none\n"),
    }
}

// The number of a refusal, 0 for an answer that is none.
fn refusal_of(answer: Answer) -> u8
    ensures { result ≡ refusal_in answer }
{
    match answer {
        Answer::Refused(refusal) => u8::from(refusal),
        Answer::Done => 0,
        Answer::Status(_) => 0,
        Answer::Opened(_, _) => 0,
        Answer::Word(_) => 0,
        Answer::LastWord(_) => 0,
        Answer::Response(_, _, _) => 0,
    }
}

// The status of an answer in two digits, or two dashes where it has none. The last word and a response have status 0.
#[tactic(auto, unfolding(drive::specs::Answer::paper, crate::specs::Text::hex_digit, laws::specs::Pick::pick))]
fn status_text(answer: Answer) -> [u8; 2]
    ensures { result ≡ status_text (paper answer).status }
{
    match answer {
        Answer::Refused(_) => *b"--",
        Answer::Done => *b"--",
        Answer::Status(status) => {
            let octet = u8::from(status);
            [text::hex_digit(octet / 16), text::hex_digit(octet % 16)]
        }
        Answer::Opened(_, _) => *b"--",
        Answer::Word(_) => *b"--",
        Answer::LastWord(_) => *b"00",
        Answer::Response(_, _, _) => *b"00",
    }
}

#[tactic(auto, unfolding(crate::specs::Told::status_told_by, laws::specs::Pick::pick))]
fn status_told_by(word: u16) -> [u8; 2]
    ensures { result ≡ status_told_by word }
{
    if word == ABSENT {
        return *b"--";
    }
    [
        text::hex_digit((word / 16 % 16) as u8),
        text::hex_digit((word % 16) as u8),
    ]
}
