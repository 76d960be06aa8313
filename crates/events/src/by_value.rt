// One event on a drive by value: its words are made, the event is answered on them, and the drive and the answer are read back.
ghost use Rattle.drive.specs.Event.{Handled};

use crate::{answer_words, event, state};
use drive::{Drive, Outcome};
use parts::Event;

// The answer and the drive after the event. A refusal changes neither the drive nor a lent word.
pub fn handle(drive: Drive, event: Event, sectors: &mut [u16], staging: &mut [u16]) -> Outcome
    ensures { Handled drive event sectors.old staging.old result sectors.new staging.new }
{
    let mut words: [u16; 21] = [0; 21];
    let mut told: [u16; 13] = [0; 13];
    state::put_state(drive, &mut words);
    let refused = event::answer_event(&mut words, event, sectors, staging, &mut told);
    let answer = answer_words::answer_in(refused, &told);
    let after = state::drive_in(&words);
    Outcome {
        answer,
        drive: after,
    }
}
