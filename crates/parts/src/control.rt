// Controls: what the octet of kind 3 asks for, and how many words pass under it.
ghost use Rattle.std.specs.Prelude.{◌≤◌, ◌≡◌};
ghost use Rattle.parts.specs.Control.{control_of, ControlSaid, is_data, is_write, is_read, names_field1, names_field2, verifies_header, moves_header, is_at_target, part, header_passes, data_words, words_to_come};

use crate::command;
use crate::setup::Setup;

#[derive(Clone, Copy, Debug, PartialEq, Eq)]
pub enum Control {
    Write,
    Read,
    Command,
    Response,
    StepHead,
    Reserved,
    Unsupported,
    Invalid,
}

pub fn control_of(octet: u16) -> Control
    ensures { ControlSaid octet result }
{
    match octet {
        0x00..=0x7f => command::code_of(octet),
        0x84..=0x8f | 0x94..=0x9f => Control::Write,
        0xc0..=0xcf | 0xd1..=0xdf => Control::Read,
        0x90 => Control::StepHead,
        0xd0 => Control::Reserved,
        0x80..=0x83 | 0x91..=0x93 => Control::Unsupported,
        _ => Control::Invalid,
    }
}

// Bit 7 tells the data transfers from commands and responses.
pub fn is_data(control: u16) -> bool
    ensures { result ≡ is_data control }
{
    0x80 <= control
}

// By bits, since it is asked at every word: 80 to 9F but 80 to 83 and 90 to 93.
pub fn is_write(control: u16) -> bool
    ensures { result ≡ is_write (control_of control) }
{
    (control / 32 == 4) & (control / 4 % 4 != 0)
}

// C0 to DF but D0.
pub fn is_read(control: u16) -> bool
    ensures { result ≡ is_read (control_of control) }
{
    (control / 32 == 6) & (control != 0xd0)
}

pub fn names_field1(control: u16) -> bool
    ensures { result ≡ names_field1 control }
{
    control / 1 % 2 == 1
}

pub fn names_field2(control: u16) -> bool
    ensures { result ≡ names_field2 control }
{
    control / 2 % 2 == 1
}

pub fn verifies_header(control: u16) -> bool
    ensures { result ≡ verifies_header control }
{
    control / 4 % 4 == 1
}

pub fn moves_header(control: u16) -> bool
    ensures { result ≡ moves_header control }
{
    2 <= control / 4 % 4
}

pub fn is_at_target(control: u16) -> bool
    ensures { result ≡ is_at_target control }
{
    control / 4 % 4 == 3
}

// The words that pass of a part of the sector: all of them, or none.
pub fn part_of(passes: bool, words: u16) -> usize
    ensures { (result ≡ part passes words) × (result ≤ words) }
{
    if passes { words as usize } else { 0 }
}

pub fn header_passes(control: u16) -> bool
    ensures { result ≡ header_passes control }
{
    is_write(control) | moves_header(control)
}

impl Setup {
    pub fn words_to_come(self, control: u16) -> usize
        ensures { result ≡ words_to_come self control }
    {
        if is_data(control) {
            return self.data_words(control);
        }
        command::parameter_words(control) as usize
    }

    fn data_words(self, control: u16) -> usize
        ensures { result ≡ data_words self control }
    {
        let header = part_of(header_passes(control), self.header);
        let field1 = part_of(names_field1(control), self.field1);
        let field2 = part_of(names_field2(control), self.field2);
        header + field1 + field2
    }
}
