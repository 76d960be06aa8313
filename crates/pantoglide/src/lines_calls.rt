// A trace of settings behind the follower's octet, by the table and without it.
ghost use Rattle.std.specs.Prelude.{◌≤◌, ◌≡◌, MatchResult, length};
ghost use Rattle.refusals.specs.Refusal.{number};
ghost use Rattle.lines.specs.Reading.{step_by_step};
ghost use Rattle.lines.specs.Turns.{read_plainly};
ghost use Rattle.pantoglide.specs.Lines.{octet_left, LinesRead};

use crate::line;
use lines::Follower;
use refusals::Refusal;

// Two functions, as C has them: the rest of each would be a closure's contract, longer than these lines.
pub fn pg_lines(follower: &mut [u8], trace: &[u8], answers: &mut [u8]) -> u8
    ensures { LinesRead step_by_step follower.old trace.now answers.old result follower.new answers.new }
{
    if follower.is_empty() {
        return u8::from(Refusal::SliceTooShort);
    }
    let read = lines::follow(line::follower_in(follower[0]), trace, answers);
    put_last(follower, read)
}

pub fn pg_lines_plain(follower: &mut [u8], trace: &[u8], answers: &mut [u8]) -> u8
    ensures { LinesRead read_plainly follower.old trace.now answers.old result follower.new answers.new }
{
    if follower.is_empty() {
        return u8::from(Refusal::SliceTooShort);
    }
    let read = lines::read_plainly(line::follower_in(follower[0]), trace, answers);
    put_last(follower, read)
}

// An octet that stands for no follower stays, every bit of it.
#[tactic(auto, unfolding(laws::specs::Pick::pick))]
fn put_last(follower: &mut [u8], read: Result<Follower, Refusal>) -> u8
    requires { 1 ≤ length follower.old }
    ensures { MatchResult read
        (λ last. (result ≡ 0) × (follower.new ≡ octet_left follower.old last))
        (λ refusal. (result ≡ number refusal) × (follower.new ≡ follower.old)) }
{
    match read {
        Ok(last) => {
            if line::follower_in(follower[0]).is_reached() {
                follower[0] = line::follower_octet(last);
            }
            0
        }
        Err(refusal) => u8::from(refusal),
    }
}
