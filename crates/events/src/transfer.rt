// Kinds 4 and 5: words of a write are staged, and committed at the last one; words of a read are taken from the sector. Those of commands and responses
// are handed on.
ghost use Rattle.std.specs.Prelude.{◌≡◌, ◌-◌, ◌<◌, ◌≤◌, true};
ghost use Rattle.parts.specs.Setup.{sector_start};
ghost use Rattle.parts.specs.Control.{control_of, is_write, is_read, data_words};
ghost use Rattle.parts.specs.Kind.{word_of};
ghost use Rattle.parts.specs.declared.kind.Kind.TheVariants as kind;
ghost use Rattle.parts.specs.declared.kind.Work.TheVariants as work;
ghost use Rattle.drive.specs.Transfer.{miscompares, committed, staged, word_staged, word_taken};
ghost use Rattle.drive.specs.Command.{word_from_host, word_to_host};
ghost use Rattle.drive.specs.Able.{Able, Room, ReadsAt, unless_own_row, unless_own_row_in};
ghost use Rattle.events.specs.State.{drive_in};
ghost use Rattle.events.specs.Fit.{Fits, Did, DidIn};
ghost use Rattle.events.specs.Copy.{fielded, Within};

use crate::{coming, command, layout, place, state, timing, words};
use drive::Answer;
use parts::{Event, Setup};
use refusals::Refusal;
use status::DriveStatus;

// ---- words from the host

pub(crate) fn on_word_from_host(
    state: &mut [u16],
    event: Event,
    sectors: &mut [u16],
    staging: &mut [u16],
) -> Answer
    requires { Fits state.old sectors.old staging.old × (event.port ≤ 1) }
    ensures { DidIn state.old (unless_own_row_in (kind.Use work.WordFromHost) (drive_in state.old) event sectors.old staging.old (word_from_host (drive_in state.old) event.port (word_of event) sectors.old staging.old)) result state.new sectors.new staging.new }
{
    if let Err(refusal) = timing::stranger(&state[..], event.port, event.none_after_2()) {
        return Answer::Refused(refusal);
    }
    let control = state[layout::CONTROL];
    let word = event.word();
    if control / 64 == timing::WRITE {
        return stage(state, control, word, sectors, staging);
    }
    if (control / 64 != timing::COMMAND) | (control == 0) {
        return Answer::Refused(Refusal::TransferOpenOrNot);
    }
    command::send(state, event.port, word)
}

// Word k of a write is staged at index k.
fn stage(
    state: &mut [u16],
    control: u16,
    word: u16,
    sectors: &mut [u16],
    staging: &mut [u16],
) -> Answer
    requires { Fits state.old sectors.old staging.old × (control ≡ (drive_in state.old).transfer.control) × (is_write (control_of control) ≡ true) }
    ensures { DidIn state.old (word_staged (drive_in state.old) word sectors.old staging.old) result state.new sectors.new staging.new }
{
    let moved = state[layout::MOVED] as usize;
    staging[moved] = word;
    after_word(state, control, moved + 1, sectors, &staging[..])
}

// So many words are staged: the header is compared at its last word, the fields are committed at the very last.
fn after_word(
    state: &mut [u16],
    control: u16,
    count: usize,
    sectors: &mut [u16],
    staging: &[u16],
) -> Answer
    requires { Fits state.old sectors.old staging.now × (control ≡ (drive_in state.old).transfer.control) × (is_write (control_of control) ≡ true) × (count < 65536) }
    ensures { DidIn state.old (staged (drive_in state.old) count (sector_start (drive_in state.old).setup (drive_in state.old).place) sectors.old staging.now) result state.new sectors.new staging.now }
{
    if header_miscompares(&state[..], count, &sectors[..], staging) {
        place::end_transfer(state);
        return Answer::Status(DriveStatus::HeaderMiscompare);
    }
    if coming::is_last(&state[..], control, count) {
        let setup = state::setup_in(&state[..]);
        let start = setup.sector_start(state::place_in(&state[..]));
        commit(setup, control, start, sectors, staging);
        place::end_transfer(state);
        return Answer::Status(DriveStatus::Normal);
    }
    state[layout::MOVED] = count as u16;
    Answer::Done
}

// The tests come one by one, each with its own reads: this is asked at every word.
fn header_miscompares(state: &[u16], count: usize, sectors: &[u16], staging: &[u16]) -> bool
    requires { Fits state.now sectors.now staging.now }
    ensures { result ≡ miscompares (drive_in state.now).setup (drive_in state.now).transfer.control count (sector_start (drive_in state.now).setup (drive_in state.now).place) sectors.now staging.now }
{
    if count != state[layout::HEADER] as usize {
        return false;
    }
    if !parts::verifies_header(state[layout::CONTROL]) {
        return false;
    }
    let setup = state::setup_in(state);
    let start = setup.sector_start(state::place_in(state));
    !words::same_words(staging, 0, sectors, start, count)
}

// The named written fields go from the staging words to the sector. They stand one behind the other in both, but that the sector has field 1 even
// where it is not named.
fn commit(setup: Setup, control: u16, start: usize, sectors: &mut [u16], staging: &[u16])
    requires { Room setup start sectors.old staging.now }
    ensures { sectors.new ≡ committed setup control start sectors.old staging.now }
{
    let header = setup.header as usize;
    let field1 = parts::part_of(parts::names_field1(control), setup.field1);
    let field2 = parts::part_of(parts::names_field2(control), setup.field2);
    let fields_at = start + header + setup.field1 as usize - field1;
    let first = header - parts::part_of(parts::moves_header(control), setup.header);
    copy(
        sectors,
        staging,
        start,
        first,
        header,
        fields_at,
        header + field1 + field2,
    );
}

// Words from the first one on, those behind the header to the fields' place. One loop: of a copy for each field the compiler makes vectors, and
// prepares them at every event. `at` is counted by hand: it jumps once, to the fields' place.
fn copy(
    sectors: &mut [u16],
    staging: &[u16],
    start: usize,
    first: usize,
    header: usize,
    fields_at: usize,
    count: usize,
)
    requires { Within sectors.old staging.now start first header fields_at count }
    ensures { sectors.new ≡ fielded sectors.old staging.now start first header fields_at (count - header) }
{
    let mut at = start + first;
    for k in first..count {
        if k == header {
            at = fields_at;
        }
        sectors[at] = staging[k];
        at += 1;
    }
}

// ---- words to the host

pub(crate) fn on_take_word(
    state: &mut [u16],
    event: Event,
    sectors: &[u16],
    staging: &[u16],
) -> Answer
    requires { Fits state.old sectors.now staging.now × (event.port ≤ 1) }
    ensures { Did state.old (unless_own_row (kind.Use work.TakeWord) (drive_in state.old) event (word_to_host (drive_in state.old) event.port sectors.now)) result state.new }
{
    if let Err(refusal) = timing::stranger(&state[..], event.port, event.none_at_all()) {
        return Answer::Refused(refusal);
    }
    let control = state[layout::CONTROL];
    if control / 64 == timing::READ {
        return take(state, sectors, staging);
    }
    if control / 64 != timing::RESPONSE {
        return Answer::Refused(Refusal::TransferOpenOrNot);
    }
    command::respond(state, event.port)
}

fn take(state: &mut [u16], sectors: &[u16], staging: &[u16]) -> Answer
    requires { Fits state.old sectors.now staging.now × Able (drive_in state.old) sectors.now staging.now × (is_read (control_of (drive_in state.old).transfer.control) ≡ true) }
    ensures { Did state.old (word_taken (drive_in state.old) sectors.now) result state.new }
{
    let control = state[layout::CONTROL];
    let moved = state[layout::MOVED];
    let setup = state::setup_in(&state[..]);
    let start = setup.sector_start(state::place_in(&state[..]));
    let at = start + word_offset(setup, control, moved);
    let word = sectors[at];
    if moved as usize + 1 == coming::read_words(&state[..], control) {
        place::end_transfer(state);
        return Answer::LastWord(word);
    }
    state[layout::MOVED] = moved + 1;
    Answer::Word(word)
}

// Where word k of a read stands in its sector.
fn word_offset(setup: Setup, control: u16, moved: u16) -> usize
    requires { (moved < data_words setup control) × (is_read (control_of control) ≡ true) }
    ensures { ReadsAt setup control moved result }
{
    let header = parts::part_of(parts::moves_header(control), setup.header);
    let field1 = parts::part_of(parts::names_field1(control), setup.field1);
    let k = moved as usize;
    if k < header {
        return k;
    }
    k + setup.header as usize + setup.field1 as usize - header - field1
}
