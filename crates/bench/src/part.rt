// A part of a capture's records over the bench drive, by the drive's own call.
ghost use Rattle.std.specs.Prelude.{◌+◌, ◌*◌, ◌%◌, ◌^◌, ◌<◌, ◌≤◌, ◌++◌, ◌≡◌, length, drop};
ghost use Rattle.bench.specs.Part.{next_line, part_report};
ghost use Rattle.bench.specs.Told.{told_lines, told_report, There, Ready, Made};

use crate::text::Text;
use crate::{line, run, text};
use capture::RECORD_LENGTH;
use events::{ANSWER_WORDS, STATE_WORDS};
use refusals::Refusal;

// As many as the longest capture has.
const MOST_EVENTS: usize = 8_191;

const ALL_ANSWER_WORDS: usize = MOST_EVENTS * ANSWER_WORDS;

// In a state.
const OWNER: usize = 8;

// In a record.
const PORT: usize = 2;

// What a part told: so many events from a record on, the words of their answers, and their gaps.
#[derive(Clone, Copy)]
struct Told<'a> {
    records: &'a [u8],
    from: usize,
    count: usize,
    answers: &'a [u16],
    gaps: &'a [u16],
    ghost there: { There from count records.now answers.now gaps.now },
}

pub(crate) fn put_part(text: &mut Text, records: &[u8], from: u32, limit: u32)
    requires { (length text.old.items + length (part_report from limit records.now) ≤ 163850) × (length records.now ≤ 65528) × (length records.now % 8 ≡ 0) }
    ensures { text.new.items ≡ text.old.items ++ part_report from limit records.now }
{
    let mut state = [0u16; STATE_WORDS];
    let mut sectors = [0u16; 48];
    let mut staging = [0u16; 4];
    let mut answers = [0u16; ALL_ANSWER_WORDS];
    let mut gaps = [0u16; MOST_EVENTS];
    let first = from as usize;
    let part = run_part(
        records,
        first,
        limit as usize,
        &mut state,
        &mut sectors,
        &mut staging,
        &mut answers,
        &mut gaps,
    );
    match part {
        Ok(count) => {
            let told = Told {
                records,
                from: first,
                count,
                answers: &answers,
                gaps: &gaps,
            };
            put_told(text, &told, state[OWNER]);
        }
        // There is room, and the records are whole.
        Err(_) => unreachable!(),
    }
}

// The events before the part are run without telling. The slices are lent one by one, as the calls of `events` take them.
fn run_part(
    records: &[u8],
    from: usize,
    limit: usize,
    state: &mut [u16],
    sectors: &mut [u16],
    staging: &mut [u16],
    answers: &mut [u16],
    gaps: &mut [u16],
) -> Result<usize, Refusal>
    requires { Ready records.now state.old sectors.old staging.old answers.old gaps.old }
    ensures { Made from limit records.now result state.new answers.new gaps.new }
{
    events::power_up_words(run::BENCH, &sectors[..], &staging[..], state)?;
    events::replay_part(state, records, 0, from, sectors, staging, answers, gaps)?;
    events::replay_part(state, records, from, limit, sectors, staging, answers, gaps)
}

fn put_told(text: &mut Text, told: &Told<'_>, owner: u16)
    requires { (told.now.from + told.now.count < 2 ^ 64) × (length text.old.items + length (told_report told.now.from told.now.count owner told.now.records.now told.now.answers.now told.now.gaps.now) ≤ 163850) }
    ensures { text.new.items ≡ text.old.items ++ told_report told.now.from told.now.count owner told.now.records.now told.now.answers.now told.now.gaps.now }
{
    text::put_numbered(text, b"ran ", told.count);
    put_lines(text, told);
    line::put_owner(text, owner);
    put_next(
        text,
        told.records.len() / RECORD_LENGTH,
        told.from + told.count,
    );
}

fn put_lines(text: &mut Text, told: &Told<'_>)
    requires { length text.old.items + length (told_lines (told.now.from + 1) told.now.count (drop (8 * told.now.from) told.now.records.now) told.now.answers.now told.now.gaps.now) ≤ 163850 }
    ensures { text.new.items ≡ text.old.items ++ told_lines (told.now.from + 1) told.now.count (drop (8 * told.now.from) told.now.records.now) told.now.answers.now told.now.gaps.now }
{
    for i in 0..told.count {
        let port = told.records[RECORD_LENGTH * (told.from + i) + PORT];
        let refusal = told.answers[ANSWER_WORDS * i];
        let status = told.answers[ANSWER_WORDS * i + 1];
        line::put_told_line(
            text,
            told.from + (i + 1),
            port,
            refusal,
            status,
            told.gaps[i],
        );
    }
}

#[tactic(auto, unfolding(crate::specs::Part::next_line, laws::specs::Pick::pick))]
fn put_next(text: &mut Text, record_count: usize, next: usize)
    requires { length text.old.items + length (next_line record_count next) ≤ 163850 }
    ensures { text.new.items ≡ text.old.items ++ next_line record_count next }
{
    if next < record_count {
        text::put_numbered(text, b"next ", next);
    } else {
        text::put(text, b"end\n");
    }
}
