// One event on the words of a state, and many.
ghost use Rattle.std.specs.Prelude.{◌≤◌, length};
ghost use Rattle.refusals.specs.Refusal.{refusal_in};
ghost use Rattle.events.specs.Event.{EventOnWords};
ghost use Rattle.events.specs.Run.{RunOnWords};
ghost use Rattle.events.specs.Turn.{RefusedShort};

use crate::{answer_words, batch, state};
use parts::Event;
use refusals::Refusal;

pub(crate) const RECORD_OCTETS: usize = 8;

// The 13 words of the answer, or the refusal and nothing changed.
pub fn answer_event(
    state: &mut [u16],
    event: Event,
    sectors: &mut [u16],
    staging: &mut [u16],
    answer: &mut [u16],
) -> Result<(), Refusal>
    ensures { EventOnWords state.old event sectors.old staging.old answer.old (refusal_in result) state.new sectors.new staging.new answer.new }
{
    if state.len() < state::STATE_WORDS {
        return Err(Refusal::SliceTooShort);
    }
    if answer.len() < answer_words::ANSWER_WORDS {
        return refuse_short(state, sectors);
    }
    let record: [u8; 8] = [
        0, 0, event.port, event.kind, event.a0, event.a1, event.a2, event.a3,
    ];
    batch::work(state, false, 1, &record, sectors, staging, answer)
}

// Where there is no room for the answer: 11, else 10. That is what an event with no staging words is refused with, so it is tried with none. The judge
// is not asked here, since the compiler puts its tests into `work` only while they are called from there alone.
fn refuse_short(state: &mut [u16], sectors: &mut [u16]) -> Result<(), Refusal>
    requires { 21 ≤ length state.old }
    ensures { RefusedShort state.old sectors.old (refusal_in result) state.new sectors.new }
{
    let record: [u8; 8] = [0; 8];
    let mut staging: [u16; 0] = [];
    let mut answer: [u16; 13] = [0; 13];
    batch::work(state, false, 1, &record, sectors, &mut staging, &mut answer)
}

// The events of the records, and 13 words for each answer. 10 where the state or `out` is too short, 8 where the records are not whole.
pub fn run_records(
    state: &mut [u16],
    records: &[u8],
    sectors: &mut [u16],
    staging: &mut [u16],
    out: &mut [u16],
) -> Result<(), Refusal>
    ensures { RunOnWords state.old records.now sectors.old staging.old out.old (refusal_in result) state.new sectors.new staging.new out.new }
{
    let count = records.len() / RECORD_OCTETS;
    if (state.len() < state::STATE_WORDS) | (out.len() / answer_words::ANSWER_WORDS < count) {
        return Err(Refusal::SliceTooShort);
    }
    if records.len() % RECORD_OCTETS != 0 {
        return Err(Refusal::Malformed);
    }
    if count == 0 {
        return Ok(());
    }
    batch::work(state, true, count, records, sectors, staging, out)
}
