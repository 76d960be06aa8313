// The words to come of a data transfer, on the words of a state. A field's words are read where the control names it and nowhere else: it seldom names all.
ghost use Rattle.std.specs.Prelude.{◌≡◌, ◌+◌, ◌<◌, ◌≤◌, true, length, ◌==◌, nat_le, slice_index};
ghost use Rattle.parts.specs.Control.{control_of, is_write, is_read, names_field1, names_field2, part, data_words, words_to_come};
ghost use Rattle.events.specs.State.{drive_in};

use crate::layout;

// Are so many words all of a write? It passes its header, verified or moved. Field 1 comes first: most words of a long sector are its, and end the
// question.
pub(crate) fn is_last(state: &[u16], control: u16, count: usize) -> bool
    requires { (23 ≤ length state.now) × (is_write (control_of control) ≡ true) }
    ensures { result ≡ (count == words_to_come (drive_in state.now).setup control) }
{
    let header = state[layout::HEADER] as usize;
    if !parts::names_field1(control) {
        return count == header + words_at(state, parts::names_field2(control), layout::FIELD_2);
    }
    let before_field2 = header + state[layout::FIELD_1] as usize;
    if count < before_field2 {
        return false;
    }
    count == before_field2 + words_at(state, parts::names_field2(control), layout::FIELD_2)
}

pub(crate) fn data_words(state: &[u16], control: u16) -> usize
    requires { 23 ≤ length state.now }
    ensures { result ≡ data_words (drive_in state.now).setup control }
{
    words_at(state, parts::header_passes(control), layout::HEADER) + field_words(state, control)
}

// Of a read, which takes the header's words where it moves them.
pub(crate) fn read_words(state: &[u16], control: u16) -> usize
    requires { (23 ≤ length state.now) × (is_read (control_of control) ≡ true) }
    ensures { result ≡ data_words (drive_in state.now).setup control }
{
    words_at(state, parts::moves_header(control), layout::HEADER) + field_words(state, control)
}

// The words of the named fields.
fn field_words(state: &[u16], control: u16) -> usize
    requires { 23 ≤ length state.now }
    ensures { (result ≡ part (names_field1 control) (slice_index state.now 4) + part (names_field2 control) (slice_index state.now 5)) × (result < 131072) }
{
    words_at(state, parts::names_field1(control), layout::FIELD_1)
        + words_at(state, parts::names_field2(control), layout::FIELD_2)
}

// The word at an index, or 0 where its part does not pass.
fn words_at(state: &[u16], passes: bool, at: usize) -> usize
    requires { at < length state.now }
    ensures { (result ≡ part passes (slice_index state.now at)) × (result < 65536) }
{
    if passes {
        return state[at] as usize;
    }
    0
}

// All the words of a transfer moved, or more? Field 1 is asked for first: most words of a long transfer are its.
pub(crate) fn is_through(state: &[u16], control: u16, moved: u16) -> bool
    requires { 23 ≤ length state.now }
    ensures { result ≡ nat_le (data_words (drive_in state.now).setup control) moved }
{
    if parts::names_field1(control) & (moved < state[layout::FIELD_1]) {
        return false;
    }
    data_words(state, control) <= moved as usize
}
