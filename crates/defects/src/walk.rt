// The walk over the data fields of a map: which copy of which set each of them is.
ghost use Rattle.std.specs.Prelude.{◌<◌, ◌^◌, ◌≡◌};
ghost use Rattle.defects.specs.Walk.{outset, is_ended, after_original, after_copy};
ghost use Rattle.defects.specs.Steps.{Judgeable, StepTaken};

use crate::front::{COPY, Front, front_of};
use crate::judging::{Field, judge_copy, judge_original};
use crate::offence::Offence;
use parts::Setup;

// Which copy of which set is due.
#[derive(Clone, Copy)]
pub(crate) struct Walk {
    // Whole sets before it.
    pub set: usize,
    pub copy: u8,
    // The data field that is copy 0 of its set.
    pub original: usize,
    pub sets: u16,
    // The track of Format Specification Storage.
    pub cylinder: u32,
    pub head: u16,
    pub last: bool,
}

// What is due at a data field.
#[derive(Clone, Copy)]
pub(crate) struct Progress {
    pub walk: Walk,
    // The least address that is higher than all before it.
    pub least: u64,
}

// Copies are octets of the map and no enum: any octet can stand there.
pub(crate) const IGNORED: u8 = 0xFF;

pub(crate) const LAST_COPY: u8 = 2;

impl Walk {
    pub(crate) fn outset() -> Walk
        ensures { result ≡ outset }
    {
        Walk {
            set: 0,
            copy: 0,
            original: 0,
            sets: 0,
            cylinder: 0,
            head: 0,
            last: false,
        }
    }

    pub(crate) fn is_ended(self) -> bool
        ensures { result ≡ is_ended self }
    {
        self.last & (self.copy == 0)
    }

    fn after_original(self, k: usize, front: Front) -> Walk
        ensures { result ≡ after_original self k front }
    {
        Walk {
            set: self.set,
            copy: 1,
            original: k,
            sets: front.sets,
            cylinder: front.cylinder,
            head: front.head,
            last: front.flags / 128 % 2 == 1,
        }
    }

    fn after_copy(self) -> Walk
        requires { self.set < 2 ^ 32 }
        ensures { result ≡ after_copy self }
    {
        if self.copy == LAST_COPY {
            return Walk {
                set: self.set + 1,
                copy: 0,
                ..self
            };
        }
        Walk {
            copy: LAST_COPY,
            ..self
        }
    }
}

// Data field k, of which `original` is copy 0 where another copy is due.
pub(crate) fn step(
    setup: Setup,
    progress: Progress,
    k: usize,
    original: &[u8],
    field: Field,
) -> Result<Progress, Offence>
    requires { Judgeable setup progress.walk field.start original.now field.octets.now }
    ensures { StepTaken setup progress.walk progress.least k field.entry.start original.now field.entry.octets.now result }
{
    let Progress { walk, least } = progress;
    if field.octets[COPY] == IGNORED {
        return Ok(progress);
    }
    if walk.copy != 0 {
        judge_copy(walk, original, field)?;
        return Ok(Progress {
            walk: walk.after_copy(),
            least,
        });
    }
    let front = front_of(field.octets);
    let above = judge_original(setup, walk, least, front, field)?;
    Ok(Progress {
        walk: walk.after_original(k, front),
        least: above,
    })
}
