// A whole trace of settings without the table: the controller's turn hands over to the drive's turn and back.
ghost use Rattle.std.specs.Prelude.{◌+◌, ◌<◌, ◌≤◌, ◌≡◌, length};
ghost use Rattle.lines.specs.Follower.{Stepped};
ghost use Rattle.lines.specs.Reading.{Leaves, step_by_step, TraceRead};
ghost use Rattle.lines.specs.Turns.{is_controllers, is_drives, is_move, nobodys_move, side_takes, whose, IsStretch, controllers_turn, drives_turn, read_plainly};

use crate::follower::{Answer, Followed, Follower, undefined_at, while_lost};
use crate::line;
use crate::line::Side;
use refusals::Refusal;

// A turn calls the next one before it is done, and each takes stack of its own: a trace is cut into stretches of so many settings.
const STRETCH: usize = 16;

// What `follow` does: 10 where the slice for the answers is shorter than the trace, and then nothing changes.
pub fn read_plainly(
    follower: Follower,
    trace: &[u8],
    answers: &mut [u8],
) -> Result<Follower, Refusal>
    ensures { TraceRead (read_plainly follower trace.now) trace.now answers.old result answers.new }
{
    if answers.len() < trace.len() {
        return Err(Refusal::SliceTooShort);
    }
    let mut last = follower;
    for at in (0..trace.len()).step_by(STRETCH) {
        let end = trace.len().min(at + STRETCH);
        last = read_stretch(last, &trace[at..end], &mut answers[at..]);
    }
    Ok(last)
}

// One setting, by what the turns go by: what `Follower::step` does by the table. Written out: by `takes` (tried) it is up to 1.7 times
// the instructions, and at workload f no more within 1.15 of plain Rust.
pub fn step_plainly(follower: Follower, setting: u8) -> Followed
    ensures { Stepped follower setting result }
{
    if !follower.is_reached() {
        return follower.refused(Refusal::UnsoundState);
    }
    if is_drives(follower, setting) {
        return follower.at(setting).told(Answer::Drives);
    }
    if is_controllers(follower, setting) {
        return follower.at(setting).told(Answer::Controllers);
    }
    nobodys_move(follower, setting)
}

// The controller has the first turn, unless a move of the drive comes.
fn read_stretch(follower: Follower, stretch: &[u8], answers: &mut [u8]) -> Follower
    requires { IsStretch stretch.now answers.old }
    ensures { Leaves (step_by_step follower stretch.now) answers.old result answers.new }
{
    if is_drives(follower, stretch[0]) {
        return drives_turn(follower, stretch, answers);
    }
    controllers_turn(follower, stretch, answers)
}

// A turn for each side, as `PlainDefinitionIsTheStep` has them: it hands over to the other by a call.
#[cycle(controllers_turn_drives_turn)]
fn controllers_turn(follower: Follower, rest: &[u8], answers: &mut [u8]) -> Follower
    requires { IsStretch rest.now answers.old }
    ensures { Leaves (controllers_turn follower rest.now) answers.old result answers.new }
{
    let taken = takes(Side::Controller, follower, rest[0]);
    let next = taken.follower;
    answers[0] = taken.octet();
    if rest.len() < 2 {
        return next;
    }
    let left = &rest[1..];
    let places = &mut answers[1..];
    if is_drives(next, left[0]) {
        return drives_turn(next, left, places);
    }
    controllers_turn(next, left, places)
}

#[cycle(controllers_turn_drives_turn)]
fn drives_turn(follower: Follower, rest: &[u8], answers: &mut [u8]) -> Follower
    requires { IsStretch rest.now answers.old }
    ensures { Leaves (drives_turn follower rest.now) answers.old result answers.new }
{
    let taken = takes(Side::Drive, follower, rest[0]);
    let next = taken.follower;
    answers[0] = taken.octet();
    if rest.len() < 2 {
        return next;
    }
    let left = &rest[1..];
    let places = &mut answers[1..];
    if is_controllers(next, left[0]) {
        return controllers_turn(next, left, places);
    }
    drives_turn(next, left, places)
}

// A setting in the turn of a side: is it a move of its own? Inlined, as all that a turn goes by, so that the turns are its only calls.
#[inline(always)]
#[tactic(auto, unfolding(crate::specs::Turns::takes, laws::specs::Pick::pick))]
fn takes(side: Side, follower: Follower, new: u8) -> Followed
    ensures { result ≡ side_takes side follower new }
{
    if !follower.is_reached() {
        return follower.refused(Refusal::UnsoundState);
    }
    if is_move(side, follower, new) {
        return follower.at(new).told(whose(side));
    }
    nobodys_move(follower, new)
}

#[inline(always)]
fn is_move(side: Side, follower: Follower, new: u8) -> bool
    ensures { result ≡ is_move side follower new }
{
    match side {
        Side::Controller => is_controllers(follower, new),
        Side::Drive => is_drives(follower, new),
    }
}

#[inline(always)]
fn whose(side: Side) -> Answer
    ensures { result ≡ whose side }
{
    match side {
        Side::Controller => Answer::Controllers,
        Side::Drive => Answer::Drives,
    }
}

// "controller: 0→4, 4→0, 0→1, 1→0, 0→16, 16→0, 24→25, 27→26, 24→28, 30→31, 29→28, 30→26, 20→16, 24→8", and "Two moves also need history."
#[inline(always)]
#[tactic(auto, unfolding(crate::specs::Follower::lacks_history))]
fn is_controllers(follower: Follower, new: u8) -> bool
    ensures { result ≡ is_controllers follower new }
{
    if follower.lost {
        return false;
    }
    // By number, as the quote lists them.
    let history = follower.history;
    match follower.setting {
        0 => (new == 4) | (new == 1) | (new == 16),
        4 => new == 0,
        1 => new == 0,
        16 => (new == 0) & history,
        24 => (new == 25) | ((new == 28) & history) | (new == 8),
        27 => new == 26,
        30 => (new == 31) | (new == 26),
        29 => new == 28,
        20 => new == 16,
        _ => false,
    }
}

// "drive: 16→24, 25→27, 26→24, 28→20, 28→30, 31→29, 8→0"
#[inline(always)]
fn is_drives(follower: Follower, new: u8) -> bool
    ensures { result ≡ is_drives follower new }
{
    match follower.setting {
        16 => new == 24,
        25 => new == 27,
        26 => new == 24,
        28 => (new == 20) | (new == 30),
        31 => new == 29,
        8 => new == 0,
        _ => false,
    }
}

#[inline(always)]
#[tactic(auto, unfolding(crate::specs::Turns::nobodys_move, laws::specs::Pick::pick))]
fn nobodys_move(follower: Follower, new: u8) -> Followed
    ensures { result ≡ nobodys_move follower new }
{
    if line::LAST_SETTING < new {
        return follower.refused(Refusal::Malformed);
    }
    if follower.lost {
        return while_lost(new);
    }
    if follower.setting == new {
        return follower.told(Answer::Same);
    }
    undefined_at(new)
}
