// The defects of a map that was judged, listed in a lent slice.
ghost use Rattle.std.specs.Prelude.{◌+◌, ◌*◌, ◌≤◌, ◌≡◌, eqb, length};
ghost use Rattle.laws.specs.Pick.{pick};
ghost use Rattle.laws.specs.Lists.{written_over, written_at};
ghost use Rattle.defects.specs.Defect.{list_octets};
ghost use Rattle.defects.specs.Field.{defects_in};
ghost use Rattle.defects.specs.Walk.{defects_before};
ghost use Rattle.defects.specs.Source.{string_in};
ghost use Rattle.defects.specs.Steps.{own_defects, FieldListed, Listable};

use crate::defect::{ENTRY_LENGTH, defect_at, is_blank, write_defect};
use crate::entries::{ENTRIES, slots_of};
use crate::front::COPY;
use crate::place::MOST_OCTETS;
use crate::source::Source;
use crate::walk::{IGNORED, LAST_COPY};
use parts::Setup;

// How many defects are listed, and which copy is due.
#[derive(Clone, Copy)]
pub(crate) struct Gathered {
    pub count: usize,
    pub copy: u8,
}

// The defects of so many data fields, each set once: how many they are.
pub(crate) fn gather(setup: Setup, source: Source, fields: usize, defects: &mut [u8]) -> usize
    requires { Listable setup source fields defects.old }
    ensures { (result ≡ length (defects_before setup (string_in setup source.entry) fields)) × (defects.new ≡ written_over defects.old (list_octets (defects_before setup (string_in setup source.entry) fields))) }
{
    let mut room = [0u8; MOST_OCTETS];
    let mut gathered = Gathered { count: 0, copy: 0 };
    for k in 0..fields {
        let field = source.field(setup, k, &mut room);
        gathered = list_field(gathered, field, defects);
    }
    gathered.count
}

// A data field behind so many defects: its own are listed where copy 0 is due and it is not ignored.
fn list_field(gathered: Gathered, field: &[u8], defects: &mut [u8]) -> Gathered
    requires { (16 ≤ length field.now) × (12 * (gathered.count + length (own_defects gathered.copy field.now)) ≤ length defects.old) }
    ensures { FieldListed gathered.copy gathered.count field.now defects.old defects.new result }
{
    let Gathered { count, copy } = gathered;
    if field[COPY] == IGNORED {
        return gathered;
    }
    if copy != 0 {
        return Gathered {
            count,
            copy: next_copy(copy),
        };
    }
    Gathered {
        count: list_entries(field, count, defects),
        copy: 1,
    }
}

// The entries of a data field behind so many others: how many they are then.
fn list_entries(field: &[u8], count: usize, defects: &mut [u8]) -> usize
    requires { (16 ≤ length field.now) × (12 * (count + length (defects_in field.now)) ≤ length defects.old) }
    ensures { (result ≡ count + length (defects_in field.now)) × (defects.new ≡ written_at defects.old (12 * count) (list_octets (defects_in field.now))) }
{
    let slots = slots_of(field.len());
    for i in 0..slots {
        let d = defect_at(field, ENTRIES + ENTRY_LENGTH * i);
        if is_blank(d) {
            return count + i;
        }
        let at = ENTRY_LENGTH * (count + i);
        write_defect(d, &mut defects[at..]);
    }
    count + slots
}

// Behind copy 1 or 2.
fn next_copy(copy: u8) -> u8
    ensures { result ≡ pick (eqb copy 2) 0 2 }
{
    if copy == LAST_COPY { 0 } else { LAST_COPY }
}
