// The set-up that the arguments give, if it is one.
ghost use Rattle.std.specs.Prelude.{◌≡◌, leb, Some, None};
ghost use Rattle.laws.specs.Pick.{pick};

use parts::Setup;
use std::rt::Env;

// The four numbers.
const ARGUMENT_COUNT: usize = 4;

// No number of a word has more.
const MOST_DIGITS: usize = 5;

// A map has nothing to do with the header, field 2 and the drive's address: any within their limits do.
pub(crate) fn read_arguments(env: &impl Env) -> Option<Setup> {
    let last = env.arg(ARGUMENT_COUNT, &mut []);
    let behind = env.arg(ARGUMENT_COUNT + 1, &mut []);
    if !reading::has_arguments(last, behind) {
        return None;
    }
    let setup = Setup {
        cylinders: argument(env, 1)?,
        heads: argument(env, 2)?,
        sectors: argument(env, 3)?,
        header: 0,
        field1: argument(env, 4)?,
        field2: 0,
        address: 0,
    };
    setup.within_limits().then_some(setup)
}

// The argument, if it is a number that a word holds. One that is longer than its room is none.
fn argument(env: &impl Env, index: usize) -> Option<u16> {
    let mut digits = [0u8; MOST_DIGITS];
    let length = env.arg(index, &mut digits).ok()?;
    word_of(numbers::number_of(&digits[..length])?)
}

#[tactic(auto, unfolding(laws::specs::Pick::pick))]
fn word_of(number: u32) -> Option<u16>
    ensures { result ≡ pick (leb number 65535) (Some number) None }
{
    u16::try_from(number).ok()
}
