// The event on a state that rows 11 and 10 let pass: a dispatch on the kind. Each arm tells its own answer, since one that is handed up before its
// words are written is packed and taken apart again, some 20 instructions an event.
ghost use Rattle.std.specs.Prelude.{◌≤◌, length};
ghost use Rattle.refusals.specs.Refusal.{refusal_in};
ghost use Rattle.events.specs.Fit.{Fits};
ghost use Rattle.events.specs.Turn.{Turn};

use crate::{answer_words, kinds, transfer};
use drive::Answer;
use parts::{Event, Kind, Work};
use refusals::Refusal;

const LAST_PORT: u8 = 1;

pub(crate) fn step(
    state: &mut [u16],
    event: Event,
    telling: bool,
    sectors: &mut [u16],
    staging: &mut [u16],
    out: &mut [u16],
) -> Result<(), Refusal>
    requires { Fits state.old sectors.old staging.old × (13 ≤ length out.old) }
    ensures { Turn telling event state.old sectors.old staging.old out.old (refusal_in result) state.new sectors.new staging.new out.new }
{
    if LAST_PORT < event.port {
        return answer_words::tell(Answer::Refused(Refusal::NoSuchPort), telling, out);
    }
    match Kind::from(event.kind) {
        Kind::Select => answer_words::tell(kinds::on_select(state, event), telling, out),
        Kind::Deselect => answer_words::tell(kinds::on_deselect(state, event), telling, out),
        Kind::Use(Work::DataControl) => {
            answer_words::tell(kinds::on_data_control(state, event), telling, out)
        }
        Kind::Use(Work::WordFromHost) => answer_words::tell(
            transfer::on_word_from_host(state, event, sectors, staging),
            telling,
            out,
        ),
        Kind::Use(Work::TakeWord) => answer_words::tell(
            transfer::on_take_word(state, event, &sectors[..], &staging[..]),
            telling,
            out,
        ),
        Kind::Use(Work::End) => answer_words::tell(kinds::on_end(state, event), telling, out),
        Kind::Use(Work::Position) => {
            answer_words::tell(kinds::on_position(state, event), telling, out)
        }
        Kind::Use(Work::Target) => {
            answer_words::tell(kinds::on_target(state, event), telling, out)
        }
        Kind::Use(Work::ReadStatus) => {
            answer_words::tell(kinds::on_read_status(state, event), telling, out)
        }
        Kind::Reset => answer_words::tell(kinds::on_reset(state, event), telling, out),
        Kind::Unknown => answer_words::tell(Answer::Refused(Refusal::Malformed), telling, out),
    }
}
