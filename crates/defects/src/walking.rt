// A map judged: data field after data field, up to its end or its first offence.
ghost use Rattle.std.specs.Prelude.{◌*◌, ◌≤◌, ◌<◌, ◌^◌, ◌≡◌, ◌&&◌, [], ◌∷◌, ltb, length};
ghost use Rattle.defects.specs.Offence.{◌at◌when◌, first_of, offence_in};
ghost use Rattle.defects.specs.Place.{field_octets};
ghost use Rattle.defects.specs.Walk.{field_at};
ghost use Rattle.defects.specs.Source.{string_in, Readable, Loadable};
ghost use Rattle.defects.specs.Steps.{last_tests, StepTaken, MapJudged};

use crate::judging::Field;
use crate::offence::{Offence, refuse_if};
use crate::place::{MOST_OCTETS, data_fields, field_octets};
use crate::source::Source;
use crate::walk::{Progress, Walk, step};
use parts::Setup;
use refusals::Refusal;

// What is due behind a map without an offence, and how many data fields it has.
#[derive(Clone, Copy)]
pub(crate) struct Judgement {
    pub walk: Walk,
    pub fields: usize,
}

pub(crate) fn judge(setup: Setup, source: Source) -> Result<Judgement, Offence>
    requires { Readable setup source }
    ensures { MapJudged setup source.entry result }
{
    let mut original = [0u8; MOST_OCTETS];
    let mut field = [0u8; MOST_OCTETS];
    let alone = source.is_alone();
    let size = source.size(setup);
    let count = data_fields(setup);
    let each = field_octets(setup);
    let mut progress = Progress {
        walk: Walk::outset(),
        least: 0,
    };
    for k in 0..count {
        let start = k * each;
        if progress.walk.is_ended() {
            judge_end(alone, start, size)?;
            return Ok(Judgement {
                walk: progress.walk,
                fields: k,
            });
        }
        refuse_if(size < start + each, Refusal::NotWhole, start)?;
        progress = turn(setup, source, progress, k, &mut original, &mut field)?;
    }
    judge_last(progress.walk, alone, count * each, size)?;
    Ok(Judgement {
        walk: progress.walk,
        fields: count,
    })
}

// Data field k.
fn turn(
    setup: Setup,
    source: Source,
    progress: Progress,
    k: usize,
    original: &mut [u8; MOST_OCTETS],
    field: &mut [u8; MOST_OCTETS],
) -> Result<Progress, Offence>
    requires { Loadable setup source k × (progress.walk.set < 2 ^ 32) × (progress.walk.original ≤ k) }
    ensures { StepTaken setup progress.walk progress.least k (k * field_octets setup) (field_at setup (string_in setup source.entry) progress.walk.original) (field_at setup (string_in setup source.entry) k) result }
{
    let start = k * field_octets(setup);
    let begun = source.field(setup, progress.walk.original, original);
    let octets = source.field(setup, k, field);
    step(setup, progress, k, begun, Field { start, octets })
}

// Behind the last data field of the cylinder.
fn judge_last(walk: Walk, alone: bool, start: usize, size: usize) -> Result<(), Offence>
    ensures { offence_in result ≡ first_of (last_tests walk alone start size) }
{
    if walk.is_ended() {
        return judge_end(alone, start, size);
    }
    refuse_if(true, Refusal::NoDataField, start)
}

// Behind the map's end: nothing may follow where the map stands alone.
fn judge_end(alone: bool, start: usize, size: usize) -> Result<(), Offence>
    ensures { offence_in result ≡ first_of (28 at start when (alone && ltb start size) ∷ []) }
{
    refuse_if(alone & (start < size), Refusal::BehindTheEnd, start)
}
