// The 21 words of the state: read into a drive, and written from one. A slice and no array: C lends it, it may be longer, and the words behind stay.
ghost use Rattle.std.specs.Prelude.{◌≡◌, ◌+◌, ◌*◌, ◌≤◌, length};
ghost use Rattle.laws.specs.Lists.{written_over};
ghost use Rattle.events.specs.State.{hold_word, hold_of, pending_word, pending_in, selected_in, drive_in, state_words, moved_to};

use crate::layout;
use drive::Drive;
use parts::{Hold, Holding, Parameters, Pending, Place, Setup, Transfer};

// How many words a drive has.
pub const STATE_WORDS: usize = 21;

const LAST_HOLD: u16 = 2;

// A selected port that row 11 refuses. A number and no Option, since row 11 judges it.
const NO_PORT: u16 = 3;

pub(crate) fn drive_in(state: &[u16]) -> Drive
    requires { 21 ≤ length state.now }
    ensures { result ≡ drive_in state.now }
{
    let selected = selected_in(state);
    let hold = hold_of(state[layout::HOLD]);
    let pending0 = pending_in(state[layout::PENDING_0]);
    let pending1 = pending_in(state[layout::PENDING_1]);
    let setup = setup_in(state);
    let place = place_in(state);
    let transfer = transfer_in(state);
    Drive {
        setup,
        holding: Holding {
            selected,
            owner: state[layout::OWNER],
            hold,
        },
        place,
        target: state[layout::TARGET],
        transfer,
        pending0,
        pending1,
    }
}

pub(crate) fn setup_in(state: &[u16]) -> Setup
    requires { 21 ≤ length state.now }
    ensures { result ≡ (drive_in state.now).setup }
{
    Setup {
        cylinders: state[layout::CYLINDERS],
        heads: state[layout::HEADS],
        sectors: state[layout::SECTORS],
        header: state[layout::HEADER],
        field1: state[layout::FIELD_1],
        field2: state[layout::FIELD_2],
        address: state[layout::ADDRESS],
    }
}

pub(crate) fn place_in(state: &[u16]) -> Place
    requires { 21 ≤ length state.now }
    ensures { result ≡ (drive_in state.now).place }
{
    Place {
        cylinder: state[layout::CYLINDER],
        head: state[layout::HEAD],
        sector: state[layout::SECTOR],
    }
}

pub(crate) fn transfer_in(state: &[u16]) -> Transfer
    requires { 21 ≤ length state.now }
    ensures { result ≡ (drive_in state.now).transfer }
{
    let parameters = Parameters {
        word0: state[layout::PARAMETER_0],
        word1: state[layout::PARAMETER_1],
        word2: state[layout::PARAMETER_2],
    };
    Transfer {
        control: state[layout::CONTROL],
        moved: state[layout::MOVED],
        parameters,
    }
}

// The words that events change; the set-up's stay.
pub(crate) fn put_moved(drive: Drive, state: &mut [u16])
    requires { 21 ≤ length state.old }
    ensures { state.new ≡ moved_to state.old drive }
{
    let h = drive.holding;
    let p = drive.place;
    let t = drive.transfer;
    let kept = t.parameters;
    let hold = h.hold;
    let pending0 = drive.pending0;
    let pending1 = drive.pending1;
    let held = hold_word(hold);
    let octets0 = pending_word(pending0);
    let octets1 = pending_word(pending1);
    state[layout::SELECTED] = h.selected;
    state[layout::OWNER] = h.owner;
    state[layout::HOLD] = held;
    state[layout::CYLINDER] = p.cylinder;
    state[layout::HEAD] = p.head;
    state[layout::SECTOR] = p.sector;
    state[layout::TARGET] = drive.target;
    state[layout::CONTROL] = t.control;
    state[layout::MOVED] = t.moved;
    state[layout::PENDING_0] = octets0;
    state[layout::PENDING_1] = octets1;
    state[layout::PARAMETER_0] = kept.word0;
    state[layout::PARAMETER_1] = kept.word1;
    state[layout::PARAMETER_2] = kept.word2;
}

// All 21 words.
pub(crate) fn put_state(drive: Drive, state: &mut [u16])
    requires { 21 ≤ length state.old }
    ensures { state.new ≡ written_over state.old (state_words drive) }
{
    let s = drive.setup;
    put_moved(drive, state);
    state[layout::CYLINDERS] = s.cylinders;
    state[layout::HEADS] = s.heads;
    state[layout::SECTORS] = s.sectors;
    state[layout::HEADER] = s.header;
    state[layout::FIELD_1] = s.field1;
    state[layout::FIELD_2] = s.field2;
    state[layout::ADDRESS] = s.address;
}

fn selected_in(state: &[u16]) -> u16
    requires { 21 ≤ length state.now }
    ensures { result ≡ selected_in state.now }
{
    if state[layout::HOLD] <= LAST_HOLD {
        return state[layout::SELECTED];
    }
    NO_PORT
}

// Functions and no `From`, here and below: the types are of another crate, and which word tells them is a matter of the layout.
fn hold_of(word: u16) -> Hold
    ensures { result ≡ hold_of word }
{
    match word {
        0 => Hold::None,
        1 => Hold::Plain,
        _ => Hold::Strong,
    }
}

fn hold_word(hold: Hold) -> u16
    ensures { result ≡ hold_word hold }
{
    match hold {
        Hold::None => 0,
        Hold::Plain => 1,
        Hold::Strong => 2,
    }
}

pub(crate) fn pending_in(word: u16) -> Pending
    ensures { result ≡ pending_in word }
{
    let [octet1, octet2] = word.to_be_bytes();
    Pending { octet1, octet2 }
}

pub(crate) fn pending_word(pending: Pending) -> u16
    ensures { result ≡ pending_word pending }
{
    word(pending.octet1, pending.octet2)
}

// Two octets, high first. By `from_be_bytes` (tried) `pg_run` takes a hundredth of plain Rust's instructions more at workload h.
pub(crate) fn word(high: u8, low: u8) -> u16
    ensures { result ≡ high * 256 + low }
{
    high as u16 * 256 + low as u16
}
