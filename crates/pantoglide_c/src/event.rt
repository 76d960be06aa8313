// One event on the words of the state.
ghost use Rattle.events.specs.Event.{event_of_octets, EventOnWords};

#[unsafe(no_mangle)]
pub extern "C" fn pg_event(
    state: &mut [u16],
    port: u8,
    kind: u8,
    a0: u8,
    a1: u8,
    a2: u8,
    a3: u8,
    sectors: &mut [u16],
    staging: &mut [u16],
    answer: &mut [u16],
) -> u8
    ensures { EventOnWords state.old (event_of_octets port kind a0 a1 a2 a3) sectors.old staging.old answer.old result state.new sectors.new staging.new answer.new }
{
    pantoglide::pg_event(state, port, kind, a0, a1, a2, a3, sectors, staging, answer)
}
