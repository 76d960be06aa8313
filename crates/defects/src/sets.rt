// The walk over the sets of a map: each is built once and put into its places three times.
ghost use Rattle.std.specs.Prelude.{ℕ, ◌+◌, ◌*◌, ◌<◌, ◌≡◌, length};
ghost use Rattle.defects.specs.Defect.{behind_all};
ghost use Rattle.defects.specs.Encoding.{map_octets, defects_before_set};
ghost use Rattle.defects.specs.EncodeSteps.{value_in, Planned, Due, put_fields};

use crate::body::{COPIES, Job, fill, finish};
use crate::place::{MOST_OCTETS, field_octets};
use crate::storing::MapUnit;
use parts::Setup;

// All sets of a map.
pub(crate) fn put_sets<U: MapUnit>(setup: Setup, job: Job, defects: &[u8], out: &mut [U])
    requires { Planned setup job defects.now × ((k : ℕ) → k < 3 * job.sets → U.Fits setup k (length out.old)) }
    ensures { out.new ≡ put_fields U.start U.units setup (map_octets setup (value_in job defects.now)) out.old 0 (3 * job.sets) }
{
    let mut least: u64 = 0;
    for set in 0..job.sets {
        least = put_set(setup, job, set, least, defects, out);
    }
}

// One set. Returns the least address that is higher than all up to its last defect.
fn put_set<U: MapUnit>(
    setup: Setup,
    job: Job,
    set: u16,
    least: u64,
    defects: &[u8],
    out: &mut [U],
) -> u64
    requires { Due setup job defects.now set least × ((k : ℕ) → k < 3 * job.sets → U.Fits setup k (length out.old)) }
    ensures next { result ≡ behind_all 0 (defects_before_set setup (value_in job defects.now) (set + 1)) }
    ensures put { out.new ≡ put_fields U.start U.units setup (map_octets setup (value_in job defects.now)) out.old (3 * set) 3 }
{
    let mut room = [0u8; MOST_OCTETS];
    let field = &mut room[..field_octets(setup)];
    let next = fill(setup, job, set, least, defects, field);
    for copy in 0..COPIES {
        finish(field, copy as u8);
        U::put_field(out, setup, COPIES * set as usize + copy, field);
    }
    next
}
