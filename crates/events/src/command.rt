// Commands and responses, below 80: the words of a command, what it does at its last one, and the words of a response.
ghost use Rattle.std.specs.Prelude.{◌≡◌, ◌+◌, ◌*◌, ◌<◌, ◌≤◌, true, false, slice_index};
ghost use Rattle.parts.specs.Command.{function_in, parameter_words};
ghost use Rattle.parts.specs.Control.{is_data};
ghost use Rattle.parts.specs.Tests.{is_taking, is_giving, transferring};
ghost use Rattle.drive.specs.State.{at_place, with_place, with_target, pending_on};
ghost use Rattle.drive.specs.Drive.{closed};
ghost use Rattle.drive.specs.Command.{cylinder_of, seeking, functioned, obeyed, parameter_sent, status_told, position_told, words_told, status_cleared, response_taken};
ghost use Rattle.events.specs.State.{drive_in, moved_to};
ghost use Rattle.events.specs.Fit.{Fit, Did};

use crate::{layout, pending, place, state};
use drive::Answer;
use parts::{Fault, Function, Parameters, Place, Transfer};
use status::DriveStatus;

const LOAD_DRIVE_FUNCTION: u16 = 0x01;

const LOAD_CYLINDER_ADDRESS: u16 = 0x04;

const LOAD_HEAD_ADDRESS: u16 = 0x05;

const LOAD_TARGET_SECTOR_ADDRESS: u16 = 0x06;

pub(crate) const READ_STATUS: u16 = 0x44;

const READ_CURRENT_SECTOR_ADDRESS: u16 = 0x46;

// ---- commands

// A word of the open command: it is kept, or it is the last. `obey` is called in two functions: from one alone the compiler puts it into the batch, and
// every word of a data transfer pays for it.
pub(crate) fn send(state: &mut [u16], port: u8, word: u16) -> Answer
    requires { Fit state.old × (port ≤ 1) × (is_data (drive_in state.old).transfer.control ≡ false) × (is_taking (drive_in state.old).transfer ≡ true) }
    ensures { Did state.old (parameter_sent (drive_in state.old) port word) result state.new }
{
    let t = state::transfer_in(&state[..]);
    let moved = t.moved;
    let words = parts::parameter_words(t.control);
    if words == 1 {
        return send_only(state, port, t.control, word);
    }
    if moved + 1 == words {
        // Read anew: with its parameters read above, every word of a command pays for them.
        let ended = state::transfer_in(&state[..]);
        place::close(state);
        return Answer::Status(obey(state, port, ended, word));
    }
    let at = layout::PARAMETER_0 + moved as usize;
    state[at] = word;
    state[layout::MOVED] = moved + 1;
    Answer::Done
}

// The one word of a command that has one.
fn send_only(state: &mut [u16], port: u8, control: u16, word: u16) -> Answer
    requires { Fit state.old × (port ≤ 1) }
    ensures { Did state.old (obeyed (transferring control 0) (closed (drive_in state.old)) port word) result state.new }
{
    place::close(state);
    Answer::Status(obey(state, port, without_parameters(control), word))
}

fn without_parameters(control: u16) -> Transfer
    ensures { result ≡ transferring control 0 }
{
    Transfer {
        control,
        moved: 0,
        parameters: Parameters {
            word0: 0,
            word1: 0,
            word2: 0,
        },
    }
}

// The command is closed; this is its last word. The status.
fn obey(state: &mut [u16], port: u8, t: Transfer, word: u16) -> DriveStatus
    requires { Fit state.old × (port ≤ 1) }
    ensures { Did state.old (obeyed t (drive_in state.old) port word) (Answer.Status result) state.new }
{
    let control = t.control;
    let p = t.parameters;
    let here = state::place_in(&state[..]);
    let target = state[layout::TARGET];
    match control {
        LOAD_DRIVE_FUNCTION => perform(state, port, word),
        LOAD_CYLINDER_ADDRESS => seek(state, port, p.word0, word, here.head, target),
        LOAD_HEAD_ADDRESS => seek(state, port, 0, here.cylinder, word, target),
        LOAD_TARGET_SECTOR_ADDRESS => seek(state, port, 0, here.cylinder, here.head, word),
        // Load Position.
        _ => seek(state, port, p.word0, p.word1, p.word2, word),
    }
}

// To a cylinder, a head and a target; the sector stays.
fn seek(state: &mut [u16], port: u8, high: u16, low: u16, head: u16, target: u16) -> DriveStatus
    requires { Fit state.old × (port ≤ 1) }
    ensures { Did state.old (seeking (drive_in state.old) port (at_place (cylinder_of high low) head (drive_in state.old).place.sector) target) (Answer.Status result) state.new }
{
    let setup = state::setup_in(&state[..]);
    let place = Place {
        cylinder: low,
        head,
        sector: state[layout::SECTOR],
    };
    if (high == 0) & setup.is_place(place) & setup.is_target(target) {
        put_aim(state, place, target);
        return DriveStatus::Normal;
    }
    pending::fault(state, port, Fault::InvalidParameter);
    DriveStatus::OperationException
}

fn put_aim(state: &mut [u16], place: Place, target: u16)
    requires { Fit state.old }
    ensures { state.new ≡ moved_to state.old (with_target (with_place (drive_in state.old) place) target) }
{
    state[layout::CYLINDER] = place.cylinder;
    state[layout::HEAD] = place.head;
    state[layout::SECTOR] = place.sector;
    state[layout::TARGET] = target;
}

// Load Drive Function.
fn perform(state: &mut [u16], port: u8, word: u16) -> DriveStatus
    requires { Fit state.old × (port ≤ 1) }
    ensures { Did state.old (functioned (function_in word) (drive_in state.old) port) (Answer.Status result) state.new }
{
    let function = parts::function_of(word);
    match function {
        Function::PriorityReserve => {
            let d = state::drive_in(&state[..]);
            state::put_moved(d.priority_reserve(), state);
            DriveStatus::Normal
        }
        Function::Reserve => {
            let d = state::drive_in(&state[..]);
            state::put_moved(d.reserve(), state);
            DriveStatus::Normal
        }
        Function::Release => {
            let d = state::drive_in(&state[..]);
            state::put_moved(d.release(), state);
            DriveStatus::Normal
        }
        Function::NoOperation => DriveStatus::Normal,
        Function::Recalibrate => {
            state[layout::CYLINDER] = 0;
            DriveStatus::Normal
        }
        Function::ActsOnMore => {
            pending::fault(state, port, Fault::UnsupportedBusControl);
            DriveStatus::OperationException
        }
        Function::NotListed => {
            pending::fault(state, port, Fault::InvalidParameter);
            DriveStatus::OperationException
        }
    }
}

// ---- responses

pub(crate) fn respond(state: &mut [u16], port: u8) -> Answer
    requires { Fit state.old × (port ≤ 1) × (is_data (drive_in state.old).transfer.control ≡ false) × (is_giving (drive_in state.old).transfer ≡ true) }
    ensures { Did state.old (response_taken (drive_in state.old) port) result state.new }
{
    let control = state[layout::CONTROL];
    let moved = state[layout::MOVED];
    let word = word_told(&state[..], port, control, moved);
    if moved + 1 == parts::parameter_words(control) {
        end_response(state, port, control);
        return Answer::LastWord(word);
    }
    state[layout::MOVED] = moved + 1;
    Answer::Word(word)
}

// The status that was told in full is cleared.
fn end_response(state: &mut [u16], port: u8, control: u16)
    requires { Fit state.old × (port ≤ 1) }
    ensures { state.new ≡ moved_to state.old (status_cleared control (closed (drive_in state.old)) port) }
{
    if control == READ_STATUS {
        let at = layout::PENDING_0 + port as usize;
        state[at] = 0;
        place::put_transfer(state, 0);
        return;
    }
    place::close(state);
}

fn word_told(state: &[u16], port: u8, control: u16, moved: u16) -> u16
    requires { Fit state.now × (port ≤ 1) × (moved < parameter_words control) }
    ensures { result ≡ slice_index (words_told control (pending_on (drive_in state.now) port) (drive_in state.now).place (drive_in state.now).target) moved }
{
    match control {
        READ_STATUS => status_word(state, port, moved),
        READ_CURRENT_SECTOR_ADDRESS => state[layout::SECTOR],
        _ => position_word(state, moved),
    }
}

fn status_word(state: &[u16], port: u8, moved: u16) -> u16
    requires { Fit state.now × (port ≤ 1) × (moved < 4) }
    ensures { result ≡ slice_index (status_told (pending_on (drive_in state.now) port)) moved }
{
    let at = layout::PENDING_0 + port as usize;
    let pending = state::pending_in(state[at]);
    match moved {
        0 => state::word(pending.octet0(), pending.octet1),
        1 => state::word(pending.octet2, 0),
        _ => 0,
    }
}

fn position_word(state: &[u16], moved: u16) -> u16
    requires { Fit state.now × (moved < 5) }
    ensures { result ≡ slice_index (position_told (drive_in state.now).place (drive_in state.now).target) moved }
{
    match moved {
        0 => 0,
        1 => state[layout::CYLINDER],
        2 => state[layout::HEAD],
        3 => state[layout::TARGET],
        _ => state[layout::SECTOR],
    }
}
