// A whole trace of settings by the table: so many steps, and an octet for each answer.
ghost use Rattle.std.specs.Prelude.{◌≡◌};
ghost use Rattle.lines.specs.Reading.{step_by_step, TraceRead};

use crate::follower::Follower;
use refusals::Refusal;

// The follower at the end of the trace. 10 where the slice for the answers is shorter than the trace: then nothing changes.
pub fn follow(follower: Follower, trace: &[u8], answers: &mut [u8]) -> Result<Follower, Refusal>
    ensures { TraceRead (step_by_step follower trace.now) trace.now answers.old result answers.new }
{
    if answers.len() < trace.len() {
        return Err(Refusal::SliceTooShort);
    }
    let reached = follower.is_reached();
    let mut last = follower;
    // By index: of what is written under `iter_mut().zip(..)` a proof knows nothing afterwards (tried).
    for (i, setting) in trace.iter().enumerate() {
        let followed = last.step_known(reached, *setting);
        answers[i] = followed.octet();
        last = followed.follower;
    }
    Ok(last)
}
