// Rows 11 and 10: whether the words are those of a sound state, and whether the slices hold it. The tests that take longest come first, and each
// ends the others: this is what a single event spends most of its time on.
ghost use Rattle.std.specs.Prelude.{◌≡◌, ◌≤◌, length};
ghost use Rattle.refusals.specs.Refusal.{refusal_in};
ghost use Rattle.drive.specs.Refusal.{row11};
ghost use Rattle.drive.specs.Able.{judgement};
ghost use Rattle.events.specs.State.{drive_in};
ghost use Rattle.events.specs.Unsound.{is_misheld, is_misopened, has_stray};

use crate::{coming, layout, state};
use refusals::Refusal;

const LAST_HOLD: u16 = 2;

// What rows 11 and 10 say of the state.
pub(crate) fn judge(state: &[u16], sectors: &[u16], staging: &[u16]) -> Result<(), Refusal>
    requires { 21 ≤ length state.now }
    ensures { refusal_in result ≡ judgement (drive_in state.now) sectors.now staging.now }
{
    if is_unsound(state) {
        return Err(Refusal::UnsoundState);
    }
    let setup = state::setup_in(state);
    if setup.lacks_room(sectors.len(), staging.len()) {
        return Err(Refusal::SliceTooShort);
    }
    Ok(())
}

fn is_unsound(state: &[u16]) -> bool
    requires { 21 ≤ length state.now }
    ensures { result ≡ row11 (drive_in state.now) }
{
    let setup = state::setup_in(state);
    if !setup.within_limits() {
        return true;
    }
    if is_misopened(state, state[layout::CONTROL], state[layout::MOVED]) {
        return true;
    }
    if is_misheld(
        state[layout::SELECTED],
        state[layout::OWNER],
        state[layout::HOLD],
        state[layout::CONTROL],
    ) {
        return true;
    }
    if has_stray(state[layout::PENDING_0]) | has_stray(state[layout::PENDING_1]) {
        return true;
    }
    !setup.is_place(state::place_in(state)) | !setup.is_target(state[layout::TARGET])
}

// A transfer with a control that opens none, or with all its words moved or more. Two arms, since one for both is tested in full by every event. A code
// below 80 that opens none has no words.
fn is_misopened(state: &[u16], control: u16, moved: u16) -> bool
    requires { 21 ≤ length state.now }
    ensures { result ≡ is_misopened (drive_in state.now).setup control moved }
{
    if control == 0 {
        return moved != 0;
    }
    if parts::is_write(control) {
        return coming::is_through(state, control, moved);
    }
    if parts::is_read(control) {
        return coming::is_through(state, control, moved);
    }
    if parts::is_data(control) {
        return true;
    }
    parts::parameter_words(control) <= moved
}

// Nobody selected: an owner and a hold are there together, and no transfer. Else the selected port is the owner.
fn is_misheld(selected: u16, owner: u16, hold: u16, control: u16) -> bool
    ensures { result ≡ is_misheld selected owner hold control }
{
    if (LAST_HOLD < hold) | (parts::NOBODY < owner) {
        return true;
    }
    if selected == parts::NOBODY {
        return ((owner == parts::NOBODY) != (hold == 0)) | (control != 0);
    }
    selected != owner
}

fn has_stray(pending: u16) -> bool
    ensures { result ≡ has_stray pending }
{
    (pending / 256 % 64 != 0) | (pending % 16 != 0)
}
