// Commands and responses: their codes, the words of each, and the functions of code 01.
ghost use Rattle.std.specs.Prelude.{◌<◌, ◌≤◌, ◌≡◌};
ghost use Rattle.laws.specs.Lists.{one_of};
ghost use Rattle.parts.specs.Command.{commands, responses, codes_acting_on_more, code_of, parameter_words, functions_acting_on_more, function_of, FunctionSaid};

use crate::control::Control;

// Commands are below it.
const FIRST_RESPONSE: u16 = 0x40;

// What the word of Load Drive Function asks for.
#[derive(Clone, Copy, Debug, PartialEq, Eq)]
pub enum Function {
    PriorityReserve,
    Reserve,
    Release,
    NoOperation,
    Recalibrate,
    // One that acts on more than holds, position, target or status.
    ActsOnMore,
    NotListed,
}

pub(crate) fn code_of(code: u16) -> Control
    ensures { result ≡ code_of code }
{
    if is_command(code) {
        return Control::Command;
    }
    if is_response(code) {
        return Control::Response;
    }
    if acts_on_more(code) {
        return Control::Unsupported;
    }
    Control::Invalid
}

fn is_command(code: u16) -> bool
    ensures { result ≡ one_of commands code }
{
    matches!(code, 0x01 | 0x04..=0x07)
}

fn is_response(code: u16) -> bool
    ensures { result ≡ one_of responses code }
{
    matches!(code, 0x44 | 0x46 | 0x47)
}

fn acts_on_more(code: u16) -> bool
    ensures { result ≡ one_of codes_acting_on_more code }
{
    matches!(code, 0x02 | 0x03 | 0x41..=0x43 | 0x45 | 0x48)
}

// The words of a command or response, 0 for what is neither.
pub fn parameter_words(code: u16) -> u16
    ensures { result ≡ parameter_words code }
{
    if code < FIRST_RESPONSE {
        return command_words(code);
    }
    response_words(code)
}

// Two dense tables: of one the compiler makes a call.
fn command_words(code: u16) -> u16
    requires { code < 0x40 }
    ensures { result ≡ parameter_words code }
{
    match code {
        0x01 => 1,
        0x04 => 2,
        0x05 => 1,
        0x06 => 1,
        0x07 => 4,
        _ => 0,
    }
}

fn response_words(code: u16) -> u16
    requires { 0x40 ≤ code }
    ensures { result ≡ parameter_words code }
{
    match code {
        0x44 => 4,
        0x46 => 1,
        0x47 => 5,
        _ => 0,
    }
}

// The function code is carried in both octets.
pub fn function_of(word: u16) -> Function
    ensures { FunctionSaid word result }
{
    // By the octets of `to_be_bytes` (tried) the proof did not close.
    if word / 256 != word % 256 {
        return Function::NotListed;
    }
    listed_as(word % 256)
}

fn listed_as(code: u16) -> Function
    ensures { result ≡ function_of code }
{
    match code {
        0x13 => Function::PriorityReserve,
        0x14 => Function::Reserve,
        0x15 => Function::Release,
        0x20 => Function::NoOperation,
        0x28 => Function::Recalibrate,
        _ => {
            if function_acts_on_more(code) {
                return Function::ActsOnMore;
            }
            Function::NotListed
        }
    }
}

fn function_acts_on_more(code: u16) -> bool
    ensures { result ≡ one_of functions_acting_on_more code }
{
    matches!(
        code,
        0x10..=0x12
            | 0x16
            | 0x18..=0x1f
            | 0x22
            | 0x23
            | 0x29
            | 0x2b..=0x2d
            | 0x41..=0x4a
            | 0x81
    )
}
