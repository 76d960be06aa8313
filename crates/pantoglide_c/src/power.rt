// Power-up.
ghost use Rattle.drive.specs.Power.{setup_of};
ghost use Rattle.events.specs.Power.{PoweredUpOnWords};

#[unsafe(no_mangle)]
pub extern "C" fn pg_power_up(
    cylinders: u16,
    heads: u16,
    sectors: u16,
    header: u16,
    field1: u16,
    field2: u16,
    address: u16,
    sector_words: &[u16],
    staging_words: &[u16],
    state: &mut [u16],
) -> u8
    ensures { PoweredUpOnWords (setup_of cylinders heads sectors header field1 field2 address) sector_words.now staging_words.now state.old result state.new }
{
    pantoglide::pg_power_up(
        cylinders,
        heads,
        sectors,
        header,
        field1,
        field2,
        address,
        sector_words,
        staging_words,
        state,
    )
}
