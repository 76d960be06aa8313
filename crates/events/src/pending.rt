// What is pending on a port, in its word of the state.
ghost use Rattle.std.specs.Prelude.{◌≤◌};
ghost use Rattle.parts.specs.Pending.{bit_of};
ghost use Rattle.drive.specs.Request.{bad_request, status_read};
ghost use Rattle.events.specs.State.{drive_in};
ghost use Rattle.events.specs.Fit.{Fit, Did, TakenUp};

use crate::{layout, state};
use drive::Answer;
use parts::Fault;
use status::DriveStatus;

// Whether a request goes on: a bit of octet 1 stops it. One that goes on has octet 2 cleared, and then nothing is pending.
pub(crate) fn take_up(state: &mut [u16], port: u8) -> bool
    requires { Fit state.old × (port ≤ 1) }
    ensures { TakenUp state.old port result state.new }
{
    let at = layout::PENDING_0 + port as usize;
    if state[at] / 256 != 0 {
        return false;
    }
    state[at] = 0;
    true
}

// A bad request, and its bit of octet 2.
pub(crate) fn fault(state: &mut [u16], port: u8, fault: Fault) -> Answer
    requires { Fit state.old × (port ≤ 1) }
    ensures { Did state.old (bad_request (drive_in state.old) port (bit_of fault)) result state.new }
{
    let at = layout::PENDING_0 + port as usize;
    let pending = state::pending_in(state[at]);
    let word = state::pending_word(pending.faulted(fault));
    state[at] = word;
    Answer::Status(DriveStatus::OperationException)
}

// The status response, which clears what it tells.
pub(crate) fn tell_status(state: &mut [u16], port: u8) -> Answer
    requires { Fit state.old × (port ≤ 1) }
    ensures { Did state.old (status_read (drive_in state.old) port) result state.new }
{
    let at = layout::PENDING_0 + port as usize;
    let pending = state::pending_in(state[at]);
    let octet0 = pending.octet0();
    state[at] = 0;
    Answer::Response(octet0, pending.octet1, pending.octet2)
}
