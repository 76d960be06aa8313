// Whether an event of kinds 2 to 9 comes at its time: the rows 8, 2 and 7, on the words of a state that row 11 lets pass.
ghost use Rattle.std.specs.Prelude.{◌≡◌, not, ◌||◌, [], ◌∷◌, ◌==◌};
ghost use Rattle.laws.specs.Rows.{first, ◌when◌};
ghost use Rattle.parts.specs.Tests.{is_taking, is_giving};
ghost use Rattle.refusals.specs.Refusal.{refusal_in};
ghost use Rattle.events.specs.State.{drive_in};
ghost use Rattle.events.specs.Fit.{Fit};

use crate::layout;
use refusals::Refusal;

// What is open, by the upper two bits of its control: bit 7 tells data from codes, bit 6 words to the host from words of the host. Control 0 is none. Numbers: an enum of the four would be made of a
// control only to be compared with one of them.
pub(crate) const COMMAND: u16 = 0;

pub(crate) const RESPONSE: u16 = 1;

pub(crate) const WRITE: u16 = 2;

pub(crate) const READ: u16 = 3;

// The refusal of an event that asks for its port selected and nothing open. A word is read where the tests before it let the event pass.
pub(crate) fn refusal(state: &[u16], port: u8, formed: bool) -> Result<(), Refusal>
    requires { Fit state.now }
    ensures { refusal_in result ≡ first (8 when not formed ∷ 2 when not ((drive_in state.now).holding.selected == port) ∷ 7 when not ((drive_in state.now).transfer.control == 0) ∷ []) }
{
    if !formed {
        return Err(Refusal::Malformed);
    }
    if !is_selected(state, port) {
        return Err(Refusal::NotSelected);
    }
    if state[layout::CONTROL] != 0 {
        return Err(Refusal::TransferOpenOrNot);
    }
    Ok(())
}

// The refusal of an event that asks for its port selected.
pub(crate) fn stranger(state: &[u16], port: u8, formed: bool) -> Result<(), Refusal>
    requires { Fit state.now }
    ensures { refusal_in result ≡ first (8 when not formed ∷ 2 when not ((drive_in state.now).holding.selected == port) ∷ []) }
{
    if !formed {
        return Err(Refusal::Malformed);
    }
    if !is_selected(state, port) {
        return Err(Refusal::NotSelected);
    }
    Ok(())
}

pub(crate) fn is_selected(state: &[u16], port: u8) -> bool
    requires { Fit state.now }
    ensures { result ≡ ((drive_in state.now).holding.selected == port) }
{
    state[layout::SELECTED] == port as u16
}

pub(crate) fn is_one_open(state: &[u16]) -> bool
    requires { Fit state.now }
    ensures { result ≡ (is_taking (drive_in state.now).transfer || is_giving (drive_in state.now).transfer) }
{
    state[layout::CONTROL] != 0
}
