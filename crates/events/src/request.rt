// Kinds 3, 7 and 8: a control, a position, a target.
ghost use Rattle.std.specs.Prelude.{◌≡◌, ◌≤◌, true, false, ◌||◌};
ghost use Rattle.parts.specs.Control.{control_of, takes_words, gives_words, is_data};
ghost use Rattle.drive.specs.Request.{opened, opening, controlled, data_control, positioned, targeted};
ghost use Rattle.events.specs.State.{drive_in};
ghost use Rattle.events.specs.Fit.{Fit, Did};

use crate::{coming, command, layout, pending, place, state};
use drive::Answer;
use parts::{Control, Fault, Place};
use status::DriveStatus;

// The code that reads status is never answered C, and clears nothing yet.
pub(crate) fn ask(state: &mut [u16], port: u8, control: u16) -> Answer
    requires { Fit state.old × (port ≤ 1) }
    ensures { Did state.old (data_control (drive_in state.old) port control) result state.new }
{
    if control == command::READ_STATUS {
        return open_code(state, control);
    }
    if !pending::take_up(state, port) {
        return Answer::Status(DriveStatus::UnsolicitedException);
    }
    carry_out(state, port, control)
}

// What the control asks for.
fn carry_out(state: &mut [u16], port: u8, control: u16) -> Answer
    requires { Fit state.old × (port ≤ 1) }
    ensures { Did state.old (controlled (control_of control) (drive_in state.old) port control) result state.new }
{
    let kind = parts::control_of(control);
    match kind {
        Control::Write | Control::Read => open_there(state, port, control),
        Control::Command | Control::Response => open_code(state, control),
        Control::StepHead => {
            place::step_head(state);
            Answer::Status(DriveStatus::Normal)
        }
        Control::Reserved => pending::fault(state, port, Fault::InvalidBusControl),
        Control::Unsupported => pending::fault(state, port, Fault::UnsupportedBusControl),
        Control::Invalid => pending::fault(state, port, Fault::InvalidBusControl),
    }
}

// At the position, or at the target, which has to be there.
fn open_there(state: &mut [u16], port: u8, control: u16) -> Answer
    requires { Fit state.old × (port ≤ 1) × (is_data control ≡ true) }
    ensures { Did state.old (opening (drive_in state.old) port control) result state.new }
{
    if !parts::is_at_target(control) {
        return open(state, control);
    }
    if state[layout::TARGET] == parts::NO_TARGET {
        return pending::fault(state, port, Fault::BusControlContext);
    }
    place::go_to_target(state);
    open(state, control)
}

// A command or response opens: it always has words.
fn open_code(state: &mut [u16], control: u16) -> Answer
    requires { Fit state.old × (is_data control ≡ false) × ((takes_words (control_of control) || gives_words (control_of control)) ≡ true) }
    ensures { Did state.old (opened (drive_in state.old) control) result state.new }
{
    let words = parts::parameter_words(control);
    let here = state::place_in(&state[..]);
    place::put_transfer(state, control);
    Answer::Opened(words, here)
}

// A data transfer opens at the position, or ends at once where no word is to come.
fn open(state: &mut [u16], control: u16) -> Answer
    requires { Fit state.old × (is_data control ≡ true) }
    ensures { Did state.old (opened (drive_in state.old) control) result state.new }
{
    let words = coming::data_words(&state[..], control);
    if words == 0 {
        place::end_transfer(state);
        return Answer::Status(DriveStatus::Normal);
    }
    let here = state::place_in(&state[..]);
    place::put_transfer(state, control);
    Answer::Opened(words as u16, here)
}

pub(crate) fn move_to(state: &mut [u16], port: u8, place: Place) -> Answer
    requires { Fit state.old × (port ≤ 1) }
    ensures { Did state.old (positioned (drive_in state.old) port place) result state.new }
{
    if !pending::take_up(state, port) {
        return Answer::Status(DriveStatus::UnsolicitedException);
    }
    let setup = state::setup_in(&state[..]);
    if setup.is_place(place) {
        place::put_place(state, place);
        return Answer::Status(DriveStatus::Normal);
    }
    pending::fault(state, port, Fault::InvalidParameter)
}

pub(crate) fn aim_at(state: &mut [u16], port: u8, target: u16) -> Answer
    requires { Fit state.old × (port ≤ 1) }
    ensures { Did state.old (targeted (drive_in state.old) port target) result state.new }
{
    if !pending::take_up(state, port) {
        return Answer::Status(DriveStatus::UnsolicitedException);
    }
    let setup = state::setup_in(&state[..]);
    if setup.is_target(target) {
        state[layout::TARGET] = target;
        return Answer::Status(DriveStatus::Normal);
    }
    pending::fault(state, port, Fault::InvalidParameter)
}
