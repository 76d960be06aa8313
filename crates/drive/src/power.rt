// Power-up: the limits, then the slices.
ghost use Rattle.std.specs.Prelude.{◌≡◌};
ghost use Rattle.drive.specs.Power.{at_rest, PoweredUp};

use crate::drive::Drive;
use parts::{Pending, Place, Setup};
use refusals::Refusal;

// The drive at rest; or 9 for a number outside its limits, 10 for a slice too short. No lent word is touched.
pub fn power_up(setup: Setup, sector_words: &[u16], staging_words: &[u16]) -> Result<Drive, Refusal>
    ensures { PoweredUp setup sector_words.now staging_words.now result }
{
    if !setup.within_limits() {
        return Err(Refusal::OutsideItsLimits);
    }
    if setup.lacks_room(sector_words.len(), staging_words.len()) {
        return Err(Refusal::SliceTooShort);
    }
    Ok(at_rest(setup))
}

fn at_rest(setup: Setup) -> Drive
    ensures { result ≡ at_rest setup }
{
    Drive {
        setup,
        holding: parts::no_holding(),
        place: Place {
            cylinder: 0,
            head: 0,
            sector: 0,
        },
        target: parts::NO_TARGET,
        transfer: parts::no_transfer(),
        pending0: Pending {
            octet1: 0,
            octet2: 0,
        },
        pending1: Pending {
            octet1: 0,
            octet2: 0,
        },
    }
}
