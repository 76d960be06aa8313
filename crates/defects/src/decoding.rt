// A map decoded: judged first, and its defects listed after.
ghost use Rattle.std.specs.Prelude.{◌/◌, ◌≤◌, length};
ghost use Rattle.defects.specs.Decoding.{DecodedMap};
ghost use Rattle.defects.specs.Sectors.{ReadMap};
ghost use Rattle.defects.specs.Source.{string_in, Readable};
ghost use Rattle.defects.specs.Steps.{MapListed};

use crate::gathering::gather;
use crate::offence::{Offence, refuse_if};
use crate::place::{data_fields, field_octets};
use crate::source::Source;
use crate::walking::judge;
use parts::Setup;
use refusals::Refusal;

// What a map tells besides its defects.
#[derive(Clone, Copy, Debug, PartialEq, Eq)]
pub struct MapRead {
    // How many defects it lists.
    pub count: usize,
    // The track of Format Specification Storage.
    pub storage_cylinder: u16,
    pub storage_head: u16,
}

// The map in the octets: how many defects it lists, and their octets at the front of `defects`. 9 where a number of the set-up is outside its
// limits, 10 where `defects` has not a third of the octets, 16 to 28 for the map's own offences; then nothing is written.
pub fn decode_map(setup: Setup, octets: &[u8], defects: &mut [u8]) -> Result<MapRead, Offence>
    ensures { DecodedMap setup octets.now defects.old defects.new result }
{
    refuse_if(!setup.within_limits(), Refusal::OutsideItsLimits, 0)?;
    refuse_if(defects.len() < octets.len() / 3, Refusal::SliceTooShort, 0)?;
    decode(setup, Source::Octets(octets), defects)
}

// The map in field 1 of the last cylinder's sectors, with what stands behind it passed over. 9, 10 and the map's own offences as in a decoding, 10
// also where the sector words are too few; offsets count in the octets of the data fields.
pub fn read_map(setup: Setup, sectors: &[u16], defects: &mut [u8]) -> Result<MapRead, Offence>
    ensures { ReadMap setup sectors.now defects.old defects.new result }
{
    refuse_if(!setup.within_limits(), Refusal::OutsideItsLimits, 0)?;
    let size = data_fields(setup) * field_octets(setup);
    let lacks_words = setup.lacks_room(sectors.len(), setup.sector_words());
    refuse_if(
        lacks_words | (defects.len() < size / 3),
        Refusal::SliceTooShort,
        0,
    )?;
    decode(setup, Source::Sectors(sectors), defects)
}

fn decode(setup: Setup, source: Source, defects: &mut [u8]) -> Result<MapRead, Offence>
    requires { Readable setup source × (length (string_in setup source) / 3 ≤ length defects.old) }
    ensures { MapListed setup source.entry defects.old defects.new result }
{
    let judged = judge(setup, source)?;
    let walk = judged.walk;
    let count = gather(setup, source, judged.fields, defects);
    Ok(MapRead {
        count,
        storage_cylinder: walk.cylinder as u16,
        storage_head: walk.head,
    })
}
