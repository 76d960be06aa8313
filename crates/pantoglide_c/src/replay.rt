// Events on the words of the state: so many, from one of a capture's records on.
ghost use Rattle.pantoglide.specs.Replay.{ReplayOnWords};

// 0 and how many events were run; or the refusal and nothing changed.
#[unsafe(no_mangle)]
pub extern "C" fn pg_replay(
    state: &mut [u16],
    records: &[u8],
    from: usize,
    limit: usize,
    sectors: &mut [u16],
    staging: &mut [u16],
    answers: &mut [u16],
    gaps: &mut [u16],
    ran: &mut [u64],
) -> u8
    ensures { ReplayOnWords state.old records.now from limit sectors.old staging.old answers.old gaps.old ran.old result state.new sectors.new staging.new answers.new gaps.new ran.new }
{
    pantoglide::pg_replay(
        state, records, from, limit, sectors, staging, answers, gaps, ran,
    )
}
