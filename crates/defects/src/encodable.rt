// Which maps can be encoded, and in how many sets.
ghost use Rattle.std.specs.Prelude.{◌/◌, ◌^◌, ◌<◌, ◌≡◌, length};
ghost use Rattle.defects.specs.Field.{slots};
ghost use Rattle.defects.specs.Place.{field_octets};
ghost use Rattle.defects.specs.Encoding.{defects_listed, sets_for, is_listable, are_listable, fits, is_encodable};

use crate::body::COPIES;
use crate::defect::{Defect, ENTRY_LENGTH, defect_at, is_blank};
use crate::entries::slots_of;
use crate::place::{data_fields, field_octets};
use parts::Setup;

// The least octets of a data field: those in front of the entries, and the CRC.
const LEAST_FIELD_OCTETS: usize = 16;

// `sets` are as many as the defects take.
pub(crate) fn is_encodable(
    setup: Setup,
    cylinder: u16,
    head: u16,
    sets: usize,
    defects: &[u8],
) -> bool
    requires { sets ≡ sets_for setup (length defects.now / 12) }
    ensures { result ≡ is_encodable setup (record { cylinder = cylinder; head = head; defects = defects_listed defects.now }) }
{
    (cylinder < setup.cylinders)
        & (head < setup.heads)
        & are_listable(setup, defects)
        & has_fields(setup, sets, defects.len() / ENTRY_LENGTH)
}

fn are_listable(setup: Setup, defects: &[u8]) -> bool
    ensures { result ≡ are_listable setup (defects_listed defects.now) }
{
    for i in 0..defects.len() / ENTRY_LENGTH {
        if !is_listable(setup, defect_at(defects, ENTRY_LENGTH * i)) {
            return false;
        }
    }
    true
}

fn is_listable(setup: Setup, d: Defect) -> bool
    ensures { result ≡ is_listable setup d }
{
    (d.cylinder < setup.cylinders as u32) & (d.head < setup.heads) & !is_blank(d)
}

// The last cylinder has data fields for so many sets, and they have room for entries if there are any.
fn has_fields(setup: Setup, sets: usize, count: usize) -> bool
    requires { sets ≡ sets_for setup count }
    ensures { result ≡ fits setup count }
{
    (sets <= data_fields(setup) / COPIES) & ((0 < slots_each(setup)) | (count == 0))
}

// How many sets so many defects take.
pub(crate) fn sets_for(setup: Setup, count: usize) -> usize
    requires { count < 2 ^ 62 }
    ensures { result ≡ sets_for setup count }
{
    let each = slots_each(setup);
    if each == 0 {
        return 1;
    }
    ((count + each - 1) / each).max(1)
}

fn slots_each(setup: Setup) -> usize
    ensures { (result ≡ slots (field_octets setup)) × (result < 2 ^ 32) }
{
    let size = field_octets(setup);
    if size < LEAST_FIELD_OCTETS {
        return 0;
    }
    slots_of(size)
}
