// Events of a capture's records one after another on the words of a state. Rows 11 and 10 are tested once: no event leads a sound drive out of
// them. A single event is a batch of one that keeps quiet of its refusal, so that the step is compiled in one place; `telling` is a test, since a
// closure for what becomes of a refusal would have its contract in four functions. The lent slices go down one by one, as C lends them: of a struct each
// promise would have to name the fields, and say which of them stay.
ghost use Rattle.std.specs.Prelude.{◌≡◌, ◌*◌, ◌≤◌, length};
ghost use Rattle.laws.specs.Lists.{written_over};
ghost use Rattle.drive.specs.Batch.{event_of};
ghost use Rattle.drive.specs.Able.{judgement};
ghost use Rattle.refusals.specs.Refusal.{refusal_in};
ghost use Rattle.events.specs.State.{drive_in};
ghost use Rattle.events.specs.Turn.{refusals, Lent, Worked};

use crate::{answer_words, event, judge, step};
use parts::Event;
use refusals::Refusal;

// So many events. The refusal where the one event of a quiet batch was refused.
pub(crate) fn work(
    state: &mut [u16],
    telling: bool,
    count: usize,
    records: &[u8],
    sectors: &mut [u16],
    staging: &mut [u16],
    out: &mut [u16],
) -> Result<(), Refusal>
    requires { Lent telling count state.old records.now out.old }
    ensures { Worked telling count records.now state.old sectors.old staging.old out.old (refusal_in result) state.new sectors.new staging.new out.new }
{
    match judge::judge(&state[..], &sectors[..], &staging[..]) {
        Ok(()) => each(state, telling, count, records, sectors, staging, out),
        Err(refusal) => {
            if !telling {
                return Err(refusal);
            }
            refuse_all(refusal, count, out);
            Ok(())
        }
    }
}

// No event leads a state that rows 11 and 10 refuse out of them.
fn refuse_all(refusal: Refusal, count: usize, out: &mut [u16])
    requires { 13 * count ≤ length out.old }
    ensures { out.new ≡ written_over out.old (refusals refusal count) }
{
    for i in 0..count {
        answer_words::put_refused(refusal, &mut out[answer_words::ANSWER_WORDS * i..]);
    }
}

fn each(
    state: &mut [u16],
    telling: bool,
    count: usize,
    records: &[u8],
    sectors: &mut [u16],
    staging: &mut [u16],
    out: &mut [u16],
) -> Result<(), Refusal>
    requires { Lent telling count state.old records.now out.old × (0 ≡ judgement (drive_in state.old) sectors.old staging.old) }
    ensures { Worked telling count records.now state.old sectors.old staging.old out.old (refusal_in result) state.new sectors.new staging.new out.new }
{
    for i in 0..count {
        let event = event_at(&records[event::RECORD_OCTETS * i..]);
        let told = &mut out[answer_words::ANSWER_WORDS * i..];
        step::step(state, event, telling, sectors, staging, told)?;
    }
    Ok(())
}

// The event of the record at the front of the octets. `bench` has its own by `capture::decode_record`, which reads the tick too and tests a length
// that is known here.
fn event_at(octets: &[u8]) -> Event
    requires { 8 ≤ length octets.now }
    ensures { result ≡ event_of octets.now }
{
    Event {
        port: octets[2],
        kind: octets[3],
        a0: octets[4],
        a1: octets[5],
        a2: octets[6],
        a3: octets[7],
    }
}
