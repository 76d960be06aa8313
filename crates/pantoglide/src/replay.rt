// Events on the words of the state: so many, from one of a capture's records on.
ghost use Rattle.pantoglide.specs.Replay.{ReplayOnWords};

use refusals::Refusal;

// 0 and how many events were run; or the refusal and nothing changed.
pub fn pg_replay(
    state: &mut [u16],
    records: &[u8],
    from: usize,
    limit: usize,
    sectors: &mut [u16],
    staging: &mut [u16],
    answers: &mut [u16],
    gaps: &mut [u16],
    ran: &mut [u64],
) -> u8
    ensures { ReplayOnWords state.old records.now from limit sectors.old staging.old answers.old gaps.old ran.old result state.new sectors.new staging.new answers.new gaps.new ran.new }
{
    if ran.len() < 1 {
        return u8::from(Refusal::SliceTooShort);
    }
    match events::replay_part(state, records, from, limit, sectors, staging, answers, gaps) {
        Ok(count) => {
            ran[0] = count as u64;
            0
        }
        Err(refusal) => u8::from(refusal),
    }
}
