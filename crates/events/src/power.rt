// Power-up on the words of a state.
ghost use Rattle.refusals.specs.Refusal.{refusal_in};
ghost use Rattle.events.specs.Power.{PoweredUpOnWords};

use crate::state;
use parts::Setup;
use refusals::Refusal;

// The state's words written, or the refusal and nothing changed.
pub fn power_up_words(
    setup: Setup,
    sector_words: &[u16],
    staging_words: &[u16],
    state: &mut [u16],
) -> Result<(), Refusal>
    ensures { PoweredUpOnWords setup sector_words.now staging_words.now state.old (refusal_in result) state.new }
{
    let powered = drive::power_up(setup, sector_words, staging_words)?;
    if state.len() < state::STATE_WORDS {
        return Err(Refusal::SliceTooShort);
    }
    state::put_state(powered, state);
    Ok(())
}
