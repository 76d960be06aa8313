// Where the data fields of a map are.
ghost use Rattle.std.specs.Prelude.{◌≡◌, true, ◌≤◌, ◌<◌};
ghost use Rattle.parts.specs.Setup.{within_limits};
ghost use Rattle.defects.specs.Place.{field_octets, data_fields, place_of, Placed};

use parts::{Place, Setup};
use refusals::Refusal;

// The longest data field.
pub(crate) const MOST_OCTETS: usize = 2048;

// The least words of field 1 that hold the octets in front and the CRC.
const LEAST_FIELD_WORDS: u16 = 8;

// The place of data field k of the map. 9 where a number of the set-up is outside its limits, 16 where the last cylinder has no such data field.
pub fn map_place(setup: Setup, k: usize) -> Result<Place, Refusal>
    ensures { Placed setup k result }
{
    if !setup.within_limits() {
        return Err(Refusal::OutsideItsLimits);
    }
    if data_fields(setup) <= k {
        return Err(Refusal::NoDataField);
    }
    Ok(place_of(setup, k))
}

pub(crate) fn place_of(setup: Setup, k: usize) -> Place
    requires { (within_limits setup ≡ true) × (k < data_fields setup) }
    ensures { result ≡ place_of setup k }
{
    let sectors = setup.sectors as usize;
    Place {
        cylinder: setup.cylinders - 1,
        head: setup.heads - 1 - (k / sectors) as u16,
        sector: (k % sectors) as u16,
    }
}

pub(crate) fn data_fields(setup: Setup) -> usize
    ensures { result ≡ data_fields setup }
{
    if setup.field1 < LEAST_FIELD_WORDS {
        return 0;
    }
    setup.heads as usize * setup.sectors as usize
}

pub(crate) fn field_octets(setup: Setup) -> usize
    ensures { result ≡ field_octets setup }
{
    2 * setup.field1 as usize
}
