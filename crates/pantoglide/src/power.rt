// Power-up.
ghost use Rattle.drive.specs.Power.{setup_of};
ghost use Rattle.events.specs.Power.{PoweredUpOnWords};

use crate::told::told;
use parts::Setup;

pub fn pg_power_up(
    cylinders: u16,
    heads: u16,
    sectors: u16,
    header: u16,
    field1: u16,
    field2: u16,
    address: u16,
    sector_words: &[u16],
    staging_words: &[u16],
    state: &mut [u16],
) -> u8
    ensures { PoweredUpOnWords (setup_of cylinders heads sectors header field1 field2 address) sector_words.now staging_words.now state.old result state.new }
{
    let setup = Setup {
        cylinders,
        heads,
        sectors,
        header,
        field1,
        field2,
        address,
    };
    told(events::power_up_words(setup, sector_words, staging_words, state))
}
