// An offence of a map: why it is refused, and where.
ghost use Rattle.std.specs.Prelude.{◌≡◌, [], ◌∷◌};
ghost use Rattle.refusals.specs.Refusal.{number};
ghost use Rattle.defects.specs.Offence.{◌at◌when◌, first_of, offence_in};

use refusals::Refusal;

#[derive(Clone, Copy, Debug, PartialEq, Eq)]
pub struct Offence {
    pub refusal: Refusal,
    // In the octets of the map; 0 for what is refused before they are read.
    pub offset: usize,
}

// One test.
pub(crate) fn refuse_if(holds: bool, refusal: Refusal, offset: usize) -> Result<(), Offence>
    ensures { offence_in result ≡ first_of (number refusal at offset when holds ∷ []) }
{
    if holds {
        return Err(Offence { refusal, offset });
    }
    Ok(())
}
