// Power-up with the numbers that the first seven words of a state are, into a state of its own.

// What stands in a state before.
const UNTOUCHED: u16 = 0x5A5A;

// Refused with this number, and no word written; or the state's words.
pub(crate) fn answered(refusal: Option<u8>, state: &[u16; 21]) -> bool {
    let mut given = [UNTOUCHED; 21];
    let number = refusal_of(state, &mut given);
    match refusal {
        Some(expected) => (number == expected) & (given == [UNTOUCHED; 21]),
        None => (number == 0) & (given == *state),
    }
}

pub(crate) fn refusal_of(state: &[u16; 21], given: &mut [u16]) -> u8 {
    pantoglide::pg_power_up(
        state[0],
        state[1],
        state[2],
        state[3],
        state[4],
        state[5],
        state[6],
        &[0u16; 180],
        &[0u16; 4],
        given,
    )
}
