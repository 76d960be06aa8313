// The entries of copy 0.
ghost use Rattle.std.specs.Prelude.{◌+◌, ◌≤◌, ◌<◌, ◌^◌, ◌≡◌, true};
ghost use Rattle.parts.specs.Setup.{within_limits};
ghost use Rattle.defects.specs.Defect.{address};
ghost use Rattle.defects.specs.Field.{slots};
ghost use Rattle.defects.specs.Steps.{Sized, EntryJudged, EntriesJudged};

use crate::defect::{Defect, ENTRY_LENGTH, defect_at, is_blank};
use crate::judging::{CRC_LENGTH, Field};
use crate::offence::{Offence, refuse_if};
use parts::Setup;
use refusals::Refusal;

// Where the first entry of a data field stands.
pub(crate) const ENTRIES: usize = 14;

// Entries without an offence.
#[derive(Clone, Copy)]
pub(crate) struct Entries {
    pub count: usize,
    // The least address that is higher than all up to the last.
    pub least: u64,
}

pub(crate) fn judge_entries(
    setup: Setup,
    flagged: bool,
    least: u64,
    field: Field,
) -> Result<Entries, Offence>
    requires { Sized setup field.start field.octets.now }
    ensures { EntriesJudged setup flagged least field.entry.start field.entry.octets.now result }
{
    let Field { start, octets } = field;
    let slots = slots_of(octets.len());
    let mut above = least;
    for i in 0..slots {
        let at = ENTRIES + ENTRY_LENGTH * i;
        let d = defect_at(octets, at);
        if is_blank(d) {
            return Ok(Entries {
                count: i,
                least: above,
            });
        }
        above = judge_entry(setup, flagged, above, start + at, d)?;
    }
    Ok(Entries {
        count: slots,
        least: above,
    })
}

// The least address that is higher than all up to this entry.
fn judge_entry(
    setup: Setup,
    flagged: bool,
    least: u64,
    offset: usize,
    d: Defect,
) -> Result<u64, Offence>
    requires { (within_limits setup ≡ true) × (offset < 2 ^ 63) }
    ensures { EntryJudged setup flagged least offset d result }
{
    refuse_if(
        setup.cylinders as u32 <= d.cylinder,
        Refusal::OutsideTheDrive,
        offset,
    )?;
    let address = address_of(d);
    refuse_if(!flagged & (address < least), Refusal::OutOfSequence, offset)?;
    refuse_if(setup.heads <= d.head, Refusal::OutsideTheDrive, offset + 4)?;
    Ok(least.max(address + 1))
}

pub(crate) fn slots_of(octets: usize) -> usize
    requires { 16 ≤ octets }
    ensures { result ≡ slots octets }
{
    (octets - ENTRIES - CRC_LENGTH) / ENTRY_LENGTH
}

pub(crate) fn address_of(d: Defect) -> u64
    requires { d.cylinder < 2 ^ 15 }
    ensures { (result ≡ address d) × (result < 2 ^ 63) }
{
    (d.cylinder as u64 * 0x1_0000 + d.head as u64) * 0x1_0000_0000 + d.offset as u64
}
