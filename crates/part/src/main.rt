// Replays a part of the capture on standard input over the bench drive. Its arguments are FROM, the index of the first event to tell, counted from 0,
// and LIMIT, how many to tell at most, in decimal. It writes how many events were run, a line for each (number, port, refusal, status, gap), the owner,
// and where the next part begins:
//   ran K
//   NUMBER PORT REFUSAL STATUS GAP
//   owner OWNER
//   next J, or `end` where no record is left
// or one line alone: `bad arguments`, `too long`, or `refused N`.
#![tactic(auto)]

ghost use Rattle.std.specs.Prelude.{◌≤◌, length};

use std::rt::Env;

// FROM and LIMIT.
const ARGUMENT_COUNT: usize = 2;

fn main(rt: HostRuntime) {
    let mut from = [0u8; numbers::MOST_DIGITS];
    let mut limit = [0u8; numbers::MOST_DIGITS];
    let mut octets = [0u8; reading::INPUT_LENGTH];
    let mut text = [0u8; bench::LONGEST_REPORT];
    reading::part_input(
        &rt,
        argument(&rt, 1, &mut from),
        argument(&rt, 2, &mut limit),
        &mut octets,
        &mut text,
    );
}

// The digits of the argument, none where there are not two. One that is longer than its room is read as none, too.
fn argument<'a>(env: &impl Env, index: usize, digits: &'a mut [u8]) -> &'a [u8]
    ensures { length result.now ≤ length digits.old }
{
    let last = env.arg(ARGUMENT_COUNT, &mut []);
    let behind = env.arg(ARGUMENT_COUNT + 1, &mut []);
    if !reading::has_arguments(last, behind) {
        return &[];
    }
    match env.arg(index, digits) {
        Ok(length) => &digits[..length],
        Err(_) => &[],
    }
}
