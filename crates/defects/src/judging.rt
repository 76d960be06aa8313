// The tests of one data field, in the order of its octets.
ghost use Rattle.std.specs.Prelude.{◌+◌, ◌-◌, ◌*◌, ◌≤◌, ◌<◌, ◌^◌, ◌≡◌, length};
ghost use Rattle.defects.specs.Offence.{first_of, offence_in, tests_over};
ghost use Rattle.defects.specs.Field.{front_of};
ghost use Rattle.defects.specs.Judging.{same_test, crc_tests, padding_tests, copy_tests};
ghost use Rattle.defects.specs.Steps.{Sized, IsNear, Comparable, OriginalJudged, NoneUnlike};

use crate::crc::crc;
use crate::defect::{ENTRY_LENGTH, word_at};
use crate::entries::{ENTRIES, judge_entries};
use crate::front::{COPY, Front, judge_front};
use crate::offence::{Offence, refuse_if};
use crate::walk::Walk;
use parts::Setup;
use refusals::Refusal;

// A data field, and the offset of its octet 0 in the map.
#[derive(Clone, Copy)]
pub(crate) struct Field<'a> {
    pub start: usize,
    pub octets: &'a [u8],
}

pub(crate) const CRC_LENGTH: usize = 2;

// Copy 0 of a set; `front` is read off it already. The least address that is higher than all up to its last entry.
pub(crate) fn judge_original(
    setup: Setup,
    walk: Walk,
    least: u64,
    front: Front,
    field: Field,
) -> Result<u64, Offence>
    requires { Sized setup field.start field.octets.now × (walk.set < 2 ^ 32) × (front ≡ front_of field.octets.now) }
    ensures { OriginalJudged setup walk least field.entry.start field.entry.octets.now result }
{
    judge_front(setup, walk, field.start, field.octets.len(), front)?;
    let entries = judge_entries(setup, front.flags / 8 % 2 == 1, least, field)?;
    judge_padding(field, entries.count)?;
    judge_crc(field)?;
    Ok(entries.least)
}

// Copies 1 and 2.
pub(crate) fn judge_copy(walk: Walk, original: &[u8], field: Field) -> Result<(), Offence>
    requires { (16 ≤ length field.octets.now) × Comparable field.start original.now field.octets.now }
    ensures { offence_in result ≡ first_of (copy_tests walk field.entry.start original.now field.entry.octets.now) }
{
    judge_alike(field, original, 0, COPY)?;
    let copy = field.octets[COPY];
    refuse_if(copy != walk.copy, Refusal::WrongCopy, field.start + COPY)?;
    let behind = COPY + 1;
    let count = field.octets.len() - behind - CRC_LENGTH;
    judge_alike(field, original, behind, count)?;
    judge_crc(field)
}

// The octets behind so many entries are zero.
// This loop and that of `judge_each` are a line each: one function of both would take the test as a closure, and say what it asks of an index.
fn judge_padding(field: Field, count: usize) -> Result<(), Offence>
    requires { (14 + 12 * count + 2 ≤ length field.octets.now) × IsNear field.start field.octets.now }
    ensures { offence_in result ≡ first_of (padding_tests field.entry.start field.entry.octets.now count) }
{
    let Field { start, octets } = field;
    let end = octets.len() - CRC_LENGTH;
    for i in ENTRIES + ENTRY_LENGTH * count..end {
        refuse_if(octets[i] != 0, Refusal::NotPadded, start + i)?;
    }
    Ok(())
}

// So many octets from an index on are as in copy 0.
fn judge_alike(field: Field, original: &[u8], from: usize, count: usize) -> Result<(), Offence>
    requires { (from + count ≤ length field.octets.now) × Comparable field.start original.now field.octets.now }
    ensures { offence_in result ≡ first_of (tests_over (same_test field.entry.start field.entry.octets.now original.now) from count) }
{
    if is_alike(field.octets, original, from, count) {
        return Ok(());
    }
    judge_each(field, original, from, count)
}

// Copies are mostly alike, and without a stop at the first octet that differs many are compared at once.
fn is_alike(octets: &[u8], original: &[u8], from: usize, count: usize) -> bool
    requires { (from + count ≤ length octets.now) × Comparable 0 original.now octets.now }
    ensures { NoneUnlike octets.now original.now from count result }
{
    let mut alike = true;
    for i in from..from + count {
        alike &= octets[i] == original[i];
    }
    alike
}

fn judge_each(field: Field, original: &[u8], from: usize, count: usize) -> Result<(), Offence>
    requires { (from + count ≤ length field.octets.now) × Comparable field.start original.now field.octets.now }
    ensures { offence_in result ≡ first_of (tests_over (same_test field.entry.start field.entry.octets.now original.now) from count) }
{
    let Field { start, octets } = field;
    for i in from..from + count {
        refuse_if(octets[i] != original[i], Refusal::UnlikeCopy0, start + i)?;
    }
    Ok(())
}

fn judge_crc(field: Field) -> Result<(), Offence>
    requires { (2 ≤ length field.octets.now) × IsNear field.start field.octets.now }
    ensures { offence_in result ≡ first_of (crc_tests field.entry.start field.entry.octets.now) }
{
    let Field { start, octets } = field;
    let end = octets.len() - CRC_LENGTH;
    let told = word_at(octets, end);
    refuse_if(told != crc(&octets[..end]), Refusal::WrongCrc, start + end)
}
