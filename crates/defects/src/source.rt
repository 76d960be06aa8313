// Where the octets of a map are read: a string of their own, or field 1 of the sectors of the last cylinder.
ghost use Rattle.std.specs.Prelude.{◌≡◌, length};
ghost use Rattle.defects.specs.Walk.{field_at};
ghost use Rattle.defects.specs.Source.{string_in, is_alone, Readable, Loadable};

use crate::place::{MOST_OCTETS, data_fields, field_octets};
use crate::sectors::load;
use parts::Setup;

#[derive(Clone, Copy)]
pub(crate) enum Source<'a> {
    Octets(&'a [u8]),
    Sectors(&'a [u16]),
}

impl<'a> Source<'a> {
    // Nothing may follow a map that has its octets to itself.
    pub(crate) fn is_alone(self) -> bool
        ensures { result ≡ is_alone self.entry }
    {
        matches!(self, Source::Octets(_))
    }

    // How many octets the map may have.
    pub(crate) fn size(self, setup: Setup) -> usize
        requires { Readable setup self }
        ensures { result ≡ length (string_in setup self.entry) }
    {
        match self {
            Source::Octets(octets) => octets.len(),
            Source::Sectors(_) => data_fields(setup) * field_octets(setup),
        }
    }

    // Data field k, which sector words make in `room`.
    pub(crate) fn field(self, setup: Setup, k: usize, room: &'a mut [u8; MOST_OCTETS]) -> &'a [u8]
        requires { Loadable setup self k }
        ensures { result.now ≡ field_at setup (string_in setup self.entry) k }
    {
        let size = field_octets(setup);
        match self {
            Source::Octets(octets) => &octets[k * size..k * size + size],
            Source::Sectors(sectors) => {
                load(setup, sectors, k, room);
                &room[..size]
            }
        }
    }
}
