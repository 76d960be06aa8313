// The octets in front of the entries of a data field.
ghost use Rattle.std.specs.Prelude.{◌≤◌, ◌<◌, ◌^◌, ◌≡◌, length};
ghost use Rattle.defects.specs.Offence.{first_of, offence_in};
ghost use Rattle.defects.specs.Field.{front_of};
ghost use Rattle.defects.specs.Judging.{has_wrong_flags, opening_tests, later_tests, front_tests};

use crate::defect::{long_at, word_at};
use crate::offence::{Offence, refuse_if};
use crate::walk::Walk;
use parts::Setup;
use refusals::Refusal;

#[derive(Clone, Copy)]
pub(crate) struct Front {
    pub count: u16,
    pub flags: u8,
    pub copy: u8,
    pub sets: u16,
    pub set: u16,
    // The track of Format Specification Storage.
    pub cylinder: u32,
    pub head: u16,
}

// Where its parts stand in a data field.
const COUNT: usize = 0;

const FLAGS: usize = 2;

pub(crate) const COPY: usize = 3;

const SETS: usize = 4;

const SET: usize = 6;

const STORAGE_CYLINDER: usize = 8;

const STORAGE_HEAD: usize = 12;

pub(crate) fn front_of(field: &[u8]) -> Front
    requires { 16 ≤ length field.now }
    ensures { result ≡ front_of field.now }
{
    Front {
        count: word_at(field, COUNT),
        flags: field[FLAGS],
        copy: field[COPY],
        sets: word_at(field, SETS),
        set: word_at(field, SET),
        cylinder: long_at(field, STORAGE_CYLINDER),
        head: word_at(field, STORAGE_HEAD),
    }
}

// `size` is the number of octets of the data field.
pub(crate) fn judge_front(
    setup: Setup,
    walk: Walk,
    start: usize,
    size: usize,
    front: Front,
) -> Result<(), Offence>
    requires { (start < 2 ^ 63) × (2 ≤ size) × (walk.set < 2 ^ 32) }
    ensures { offence_in result ≡ first_of (front_tests setup walk start size front) }
{
    refuse_if(front.count as usize != size - 2, Refusal::WrongCount, start)?;
    if walk.set == 0 {
        return judge_opening(setup, start, front);
    }
    judge_later(walk, start, front)
}

// The first data field of the map.
fn judge_opening(setup: Setup, start: usize, front: Front) -> Result<(), Offence>
    requires { start < 2 ^ 63 }
    ensures { offence_in result ≡ first_of (opening_tests setup start front) }
{
    let wrong_flags = has_wrong_flags(front.flags, front.sets == 1);
    refuse_if(wrong_flags, Refusal::WrongFlags, start + FLAGS)?;
    refuse_if(front.copy != 0, Refusal::WrongCopy, start + COPY)?;
    refuse_if(front.sets == 0, Refusal::WrongSets, start + SETS)?;
    refuse_if(front.set != 0, Refusal::WrongSet, start + SET)?;
    let no_cylinder = setup.cylinders as u32 <= front.cylinder;
    refuse_if(
        no_cylinder,
        Refusal::OutsideTheDrive,
        start + STORAGE_CYLINDER,
    )?;
    let no_head = setup.heads <= front.head;
    refuse_if(no_head, Refusal::OutsideTheDrive, start + STORAGE_HEAD)
}

// Copy 0 of a later set.
fn judge_later(walk: Walk, start: usize, front: Front) -> Result<(), Offence>
    requires { (start < 2 ^ 63) × (walk.set < 2 ^ 32) }
    ensures { offence_in result ≡ first_of (later_tests walk start front) }
{
    let wrong_flags = has_wrong_flags(front.flags, walk.sets as usize == walk.set + 1);
    refuse_if(wrong_flags, Refusal::WrongFlags, start + FLAGS)?;
    refuse_if(front.copy != 0, Refusal::WrongCopy, start + COPY)?;
    refuse_if(front.sets != walk.sets, Refusal::WrongSets, start + SETS)?;
    refuse_if(
        front.set as usize != walk.set,
        Refusal::WrongSet,
        start + SET,
    )?;
    let other_cylinder = front.cylinder != walk.cylinder;
    refuse_if(other_cylinder, Refusal::WrongSets, start + STORAGE_CYLINDER)?;
    refuse_if(
        front.head != walk.head,
        Refusal::WrongSets,
        start + STORAGE_HEAD,
    )
}

fn has_wrong_flags(flags: u8, last: bool) -> bool
    ensures { result ≡ has_wrong_flags flags last }
{
    let says_last = flags / 128 % 2 == 1;
    (flags / 16 % 8 != 0) | (flags % 8 != 0) | (last & !says_last) | (!last & says_last)
}
