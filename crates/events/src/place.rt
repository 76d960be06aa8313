// The words of the position and of the open transfer.
ghost use Rattle.std.specs.Prelude.{◌≡◌, ◌≤◌, length};
ghost use Rattle.drive.specs.State.{with_place};
ghost use Rattle.drive.specs.Drive.{ended, closed, at_its_target, head_stepped};
ghost use Rattle.events.specs.Open.{transfer_on};
ghost use Rattle.events.specs.State.{drive_in, moved_to};
ghost use Rattle.events.specs.Fit.{Fit};

use crate::layout;
use parts::Place;

// A transfer ends inside the session.
pub(crate) fn end_transfer(state: &mut [u16])
    requires { Fit state.old }
    ensures { state.new ≡ moved_to state.old (ended (drive_in state.old)) }
{
    let next = parts::next_of(state[layout::SECTOR], state[layout::SECTORS]);
    state[layout::SECTOR] = next;
    put_transfer(state, 0);
}

// A command or response ends: the position stays.
pub(crate) fn close(state: &mut [u16])
    requires { Fit state.old }
    ensures { state.new ≡ moved_to state.old (closed (drive_in state.old)) }
{
    put_transfer(state, 0);
}

// No word of it has moved, and none of a command is kept. Control 0 is no transfer.
pub(crate) fn put_transfer(state: &mut [u16], control: u16)
    requires { 23 ≤ length state.old }
    ensures { state.new ≡ transfer_on state.old control }
{
    state[layout::CONTROL] = control;
    state[layout::MOVED] = 0;
    state[layout::PARAMETER_0] = 0;
    state[layout::PARAMETER_1] = 0;
    state[layout::PARAMETER_2] = 0;
}

pub(crate) fn put_place(state: &mut [u16], place: Place)
    requires { Fit state.old }
    ensures { state.new ≡ moved_to state.old (with_place (drive_in state.old) place) }
{
    state[layout::CYLINDER] = place.cylinder;
    state[layout::HEAD] = place.head;
    state[layout::SECTOR] = place.sector;
}

// The target becomes the position's sector.
pub(crate) fn go_to_target(state: &mut [u16])
    requires { Fit state.old }
    ensures { state.new ≡ moved_to state.old (at_its_target (drive_in state.old)) }
{
    state[layout::SECTOR] = state[layout::TARGET];
}

pub(crate) fn step_head(state: &mut [u16])
    requires { Fit state.old }
    ensures { state.new ≡ moved_to state.old (head_stepped (drive_in state.old)) }
{
    let next = parts::next_of(state[layout::HEAD], state[layout::HEADS]);
    state[layout::HEAD] = next;
}
