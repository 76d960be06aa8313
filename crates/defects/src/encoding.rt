// A map encoded, in the plain spelling.
ghost use Rattle.std.specs.Prelude.{◌≡◌, ◌/◌, true, length, Some, None};
ghost use Rattle.laws.specs.Pick.{pick};
ghost use Rattle.parts.specs.Setup.{within_limits};
ghost use Rattle.defects.specs.Encoding.{sets_for, is_malformed, EncodedMap};
ghost use Rattle.defects.specs.Sectors.{WroteMap};

use crate::body::{COPIES, Job};
use crate::defect::ENTRY_LENGTH;
use crate::encodable::{is_encodable, sets_for};
use crate::place::field_octets;
use crate::sets::put_sets;
use parts::Setup;
use refusals::Refusal;

// The map of the defects, 12 octets each, at the front of `out`, the rest of it as it was: how many octets it has. 9 where a number of the set-up is
// outside its limits, 10 where `out` cannot hold the map, 8 where the octets are not whole defects, a defect or the storage
// track is not in the drive, a defect is twelve zeros, or the last cylinder has not data fields enough.
pub fn encode_map(
    setup: Setup,
    storage_cylinder: u16,
    storage_head: u16,
    defects: &[u8],
    out: &mut [u8],
) -> Result<usize, Refusal>
    ensures { EncodedMap setup storage_cylinder storage_head defects.now out.old out.new result }
{
    if !setup.within_limits() {
        return Err(Refusal::OutsideItsLimits);
    }
    let sets = sets_for(setup, defects.len() / ENTRY_LENGTH);
    let size = COPIES * field_octets(setup);
    if out.len() / size < sets {
        return Err(Refusal::SliceTooShort);
    }
    let Some(job) = job_of(setup, storage_cylinder, storage_head, sets, defects) else {
        return Err(Refusal::Malformed);
    };
    put_sets(setup, job, defects, out);
    Ok(sets * size)
}

// The same map in the sector words, each data field in field 1 of its place, all else as it was. 10 where the words of all
// sectors do not fit `sectors`, 9 and 8 as above.
pub fn write_map(
    setup: Setup,
    storage_cylinder: u16,
    storage_head: u16,
    defects: &[u8],
    sectors: &mut [u16],
) -> Result<(), Refusal>
    ensures { WroteMap setup storage_cylinder storage_head defects.now sectors.old sectors.new result }
{
    if !setup.within_limits() {
        return Err(Refusal::OutsideItsLimits);
    }
    if setup.lacks_room(sectors.len(), setup.sector_words()) {
        return Err(Refusal::SliceTooShort);
    }
    let sets = sets_for(setup, defects.len() / ENTRY_LENGTH);
    let Some(job) = job_of(setup, storage_cylinder, storage_head, sets, defects) else {
        return Err(Refusal::Malformed);
    };
    put_sets(setup, job, defects, sectors);
    Ok(())
}

// What is to be put, in so many sets: none where the octets are not whole defects or no decoding yields such a map.
fn job_of(setup: Setup, cylinder: u16, head: u16, sets: usize, defects: &[u8]) -> Option<Job>
    requires { (within_limits setup ≡ true) × (sets ≡ sets_for setup (length defects.now / 12)) }
    ensures { result ≡ pick (is_malformed setup cylinder head defects.now) None (Some (record { sets = sets; cylinder = cylinder; head = head })) }
{
    if (defects.len() % ENTRY_LENGTH != 0) | !is_encodable(setup, cylinder, head, sets, defects) {
        return None;
    }
    Some(Job {
        sets: sets as u16,
        cylinder,
        head,
    })
}
