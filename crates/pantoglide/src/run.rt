// Events on the words of the state: many at once.
ghost use Rattle.events.specs.Run.{RunOnWords};

use crate::told::told;

pub fn pg_run(
    state: &mut [u16],
    records: &[u8],
    sectors: &mut [u16],
    staging: &mut [u16],
    answers: &mut [u16],
) -> u8
    ensures { RunOnWords state.old records.now sectors.old staging.old answers.old result state.new sectors.new staging.new answers.new }
{
    told(events::run_records(state, records, sectors, staging, answers))
}
