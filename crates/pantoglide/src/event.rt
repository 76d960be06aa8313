// One event on the words of the state.
ghost use Rattle.events.specs.Event.{event_of_octets, EventOnWords};

use crate::told::told;
use parts::Event;

pub fn pg_event(
    state: &mut [u16],
    port: u8,
    kind: u8,
    a0: u8,
    a1: u8,
    a2: u8,
    a3: u8,
    sectors: &mut [u16],
    staging: &mut [u16],
    answer: &mut [u16],
) -> u8
    ensures { EventOnWords state.old (event_of_octets port kind a0 a1 a2 a3) sectors.old staging.old answer.old result state.new sectors.new staging.new answer.new }
{
    let event = Event {
        port,
        kind,
        a0,
        a1,
        a2,
        a3,
    };
    told(events::answer_event(state, event, sectors, staging, answer))
}
