// What each kind does that leaves the lent words: its own tests, then its work.
// `Fit` stays a premise and is no type's invariant: between two writes of one event the words need not be those of a sound state, and that they are
// behind it is proved once, in `drive` (`stays_sound`). So does `port ≤ 1`: the definitions take an event's port as the octet that it is, and of a type
// of two ports each promise would have to say the number.
ghost use Rattle.std.specs.Prelude.{◌≤◌};
ghost use Rattle.parts.specs.Kind.{word_of, place_of};
ghost use Rattle.parts.specs.declared.kind.Kind.TheVariants as kind;
ghost use Rattle.parts.specs.declared.kind.Work.TheVariants as work;
ghost use Rattle.drive.specs.State.{told};
ghost use Rattle.drive.specs.Drive.{selected, deselected, after_reset};
ghost use Rattle.drive.specs.Command.{ended_early};
ghost use Rattle.drive.specs.Request.{data_control, positioned, targeted, status_read};
ghost use Rattle.drive.specs.Able.{unless_own_row};
ghost use Rattle.events.specs.State.{drive_in};
ghost use Rattle.events.specs.Fit.{Fit, Did};

use crate::{layout, pending, place, request, state, timing};
use drive::Answer;
use parts::{Event, Place};
use refusals::Refusal;
use status::DriveStatus;

pub(crate) fn on_select(state: &mut [u16], event: Event) -> Answer
    requires { Fit state.old }
    ensures { Did state.old (unless_own_row kind.Select (drive_in state.old) event (told Answer.Done (selected (drive_in state.old) event.port event.a0))) result state.new }
{
    let d = state::drive_in(&state[..]);
    let s = d.setup;
    let h = d.holding;
    let port = event.port as u16;
    let octet = event.a0;
    let misaddressed = parts::is_misaddressed(octet, s.address);
    let changes_mode = parts::changes_mode(octet);
    let busy = h.is_busy(port, octet);
    let refused = parts::select_refusal(
        event.none_after_1(),
        h.selected == port,
        misaddressed,
        changes_mode,
        busy,
    );
    if let Err(refusal) = refused {
        return Answer::Refused(refusal);
    }
    state::put_moved(d.select(port, octet), state);
    Answer::Done
}

pub(crate) fn on_deselect(state: &mut [u16], event: Event) -> Answer
    requires { Fit state.old }
    ensures { Did state.old (unless_own_row kind.Deselect (drive_in state.old) event (told Answer.Done (deselected (drive_in state.old)))) result state.new }
{
    let formed = event.none_at_all();
    if let Err(refusal) = timing::refusal(&state[..], event.port, formed) {
        return Answer::Refused(refusal);
    }
    let d = state::drive_in(&state[..]);
    state::put_moved(d.deselect(), state);
    Answer::Done
}

pub(crate) fn on_reset(state: &mut [u16], event: Event) -> Answer
    requires { Fit state.old }
    ensures { Did state.old (unless_own_row kind.Reset (drive_in state.old) event (told Answer.Done (after_reset (drive_in state.old)))) result state.new }
{
    if !event.none_at_all() {
        return Answer::Refused(Refusal::Malformed);
    }
    let d = state::drive_in(&state[..]);
    state::put_moved(d.reset(), state);
    Answer::Done
}

pub(crate) fn on_end(state: &mut [u16], event: Event) -> Answer
    requires { Fit state.old }
    ensures { Did state.old (unless_own_row (kind.Use work.End) (drive_in state.old) event (told (Answer.Status DriveStatus.Normal) (ended_early (drive_in state.old)))) result state.new }
{
    let formed = event.none_at_all();
    let selected = timing::is_selected(&state[..], event.port);
    let closed = !timing::is_one_open(&state[..]);
    if let Err(refusal) = parts::inside_refusal(formed, selected, closed) {
        return Answer::Refused(refusal);
    }
    if parts::is_data(state[layout::CONTROL]) {
        place::end_transfer(state);
        return Answer::Status(DriveStatus::Normal);
    }
    place::close(state);
    Answer::Status(DriveStatus::Normal)
}

pub(crate) fn on_data_control(state: &mut [u16], event: Event) -> Answer
    requires { Fit state.old × (event.port ≤ 1) }
    ensures { Did state.old (unless_own_row (kind.Use work.DataControl) (drive_in state.old) event (data_control (drive_in state.old) event.port event.a0)) result state.new }
{
    let formed = event.none_after_1();
    if let Err(refusal) = timing::refusal(&state[..], event.port, formed) {
        return Answer::Refused(refusal);
    }
    request::ask(state, event.port, event.a0 as u16)
}

pub(crate) fn on_position(state: &mut [u16], event: Event) -> Answer
    requires { Fit state.old × (event.port ≤ 1) }
    ensures { Did state.old (unless_own_row (kind.Use work.Position) (drive_in state.old) event (positioned (drive_in state.old) event.port (place_of event))) result state.new }
{
    if let Err(refusal) = timing::refusal(&state[..], event.port, true) {
        return Answer::Refused(refusal);
    }
    let place = Place {
        cylinder: event.word(),
        head: event.a2 as u16,
        sector: event.a3 as u16,
    };
    request::move_to(state, event.port, place)
}

pub(crate) fn on_target(state: &mut [u16], event: Event) -> Answer
    requires { Fit state.old × (event.port ≤ 1) }
    ensures { Did state.old (unless_own_row (kind.Use work.Target) (drive_in state.old) event (targeted (drive_in state.old) event.port (word_of event))) result state.new }
{
    let formed = event.none_after_2();
    if let Err(refusal) = timing::refusal(&state[..], event.port, formed) {
        return Answer::Refused(refusal);
    }
    request::aim_at(state, event.port, event.word())
}

pub(crate) fn on_read_status(state: &mut [u16], event: Event) -> Answer
    requires { Fit state.old × (event.port ≤ 1) }
    ensures { Did state.old (unless_own_row (kind.Use work.ReadStatus) (drive_in state.old) event (status_read (drive_in state.old) event.port)) result state.new }
{
    let formed = event.none_at_all();
    if let Err(refusal) = timing::refusal(&state[..], event.port, formed) {
        return Answer::Refused(refusal);
    }
    pending::tell_status(state, event.port)
}
