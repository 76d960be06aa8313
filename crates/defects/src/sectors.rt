// The data fields of a map in a drive's sector words.
ghost use Rattle.std.specs.Prelude.{◌+◌, ◌*◌, ◌≤◌, ◌<◌, ◌≡◌, true, length, take, drop};
ghost use Rattle.parts.specs.Setup.{within_limits};
ghost use Rattle.defects.specs.Place.{field_octets, data_fields};
ghost use Rattle.defects.specs.Walk.{field_at};
ghost use Rattle.defects.specs.EncodeSteps.{HasSectors};
ghost use Rattle.defects.specs.Sectors.{word_octets, field_start, last_cylinder};

use crate::place::{MOST_OCTETS, place_of};
use parts::Setup;

// Data field k of the map, at the front of the room.
pub(crate) fn load(setup: Setup, sectors: &[u16], k: usize, field: &mut [u8; MOST_OCTETS])
    requires { HasSectors setup k (length sectors.now) }
    ensures { take (field_octets setup) field.new ≡ field_at setup (last_cylinder setup sectors.now) k }
{
    load_words(sectors, field_start(setup, k), setup.field1 as usize, field);
}

// The high octet of a word is the first.
fn load_words(sectors: &[u16], start: usize, count: usize, field: &mut [u8])
    requires { (start + count ≤ length sectors.now) × (2 * count ≤ length field.old) }
    ensures { take (2 * count) field.new ≡ word_octets (take count (drop start sectors.now)) }
{
    for i in 0..count {
        let [high, low] = sectors[start + i].to_be_bytes();
        field[2 * i] = high;
        field[2 * i + 1] = low;
    }
}

// Where data field k begins in the sector words.
pub(crate) fn field_start(setup: Setup, k: usize) -> usize
    requires { (within_limits setup ≡ true) × (k < data_fields setup) }
    ensures { result ≡ field_start setup k }
{
    setup.sector_start(place_of(setup, k)) + setup.header as usize
}
