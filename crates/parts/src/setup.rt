// The set-up: its limits, its sizes, and where a sector's words are.
ghost use Rattle.std.specs.Prelude.{◌≡◌, ◌%◌, ◌^◌, true};
ghost use Rattle.parts.specs.Setup.{between, within_limits, sector_words, all_words, lacks_room, sector_number, sector_start, is_place, is_target, following};

#[derive(Clone, Copy, Debug, PartialEq, Eq)]
pub struct Setup {
    pub cylinders: u16,
    pub heads: u16,
    pub sectors: u16,
    pub header: u16,
    pub field1: u16,
    pub field2: u16,
    pub address: u16,
}

#[derive(Clone, Copy, Debug, PartialEq, Eq)]
pub struct Place {
    pub cylinder: u16,
    pub head: u16,
    pub sector: u16,
}

// A number and no Option: row 11 judges any word that is handed in for a target.
pub const NO_TARGET: u16 = 0xFFFF;

const MOST_CYLINDERS: u16 = 4096;

const MOST_HEADS: u16 = 32;

const MOST_SECTORS: u16 = 256;

const MOST_HEADER_WORDS: u16 = 8;

const MOST_FIELD_WORDS: u16 = 1024;

const LAST_ADDRESS: u16 = 7;

impl Setup {
    pub fn within_limits(self) -> bool
        ensures { result ≡ within_limits self }
    {
        is_between(1, self.cylinders, MOST_CYLINDERS)
            & is_between(1, self.heads, MOST_HEADS)
            & is_between(1, self.sectors, MOST_SECTORS)
            & is_between(0, self.header, MOST_HEADER_WORDS)
            & is_between(1, self.field1, MOST_FIELD_WORDS)
            & is_between(0, self.field2, MOST_FIELD_WORDS)
            & is_between(0, self.address, LAST_ADDRESS)
    }

    // The words of one sector.
    pub fn sector_words(self) -> usize
        ensures { result ≡ sector_words self }
    {
        self.header as usize + self.field1 as usize + self.field2 as usize
    }

    // The words of all sectors.
    fn all_words(self) -> usize
        requires { within_limits self ≡ true }
        ensures { result ≡ all_words self }
    {
        self.cylinders as usize * self.heads as usize * self.sectors as usize * self.sector_words()
    }

    // So many words lent do not hold the drive. The limits are tested here too, since the product of numbers outside them can wrap.
    pub fn lacks_room(self, sectors: usize, staging: usize) -> bool
        ensures { result ≡ lacks_room self sectors staging }
    {
        if !self.within_limits() {
            return true;
        }
        (sectors < self.all_words()) | (staging < self.sector_words())
    }

    pub fn is_place(self, place: Place) -> bool
        ensures { result ≡ is_place self place }
    {
        (place.cylinder < self.cylinders)
            & (place.head < self.heads)
            & (place.sector < self.sectors)
    }

    // The sectors before the one at a place.
    #[tactic(auto, unfolding(crate::specs::Setup::sector_number))]
    fn sector_number(self, place: Place) -> usize
        ensures { result ≡ sector_number self place }
    {
        let track = place.cylinder as usize * self.heads as usize + place.head as usize;
        track * self.sectors as usize + place.sector as usize
    }

    // Where the words of the sector at a place begin. Of numbers outside their limits the product can wrap.
    #[tactic(auto, unfolding(crate::specs::Setup::sector_start))]
    pub fn sector_start(self, place: Place) -> usize
        ensures { result ≡ sector_start self place % 2 ^ 64 }
    {
        self.sector_number(place).wrapping_mul(self.sector_words())
    }

    pub fn is_target(self, target: u16) -> bool
        ensures { result ≡ is_target self target }
    {
        (target == NO_TARGET) | (target < self.sectors)
    }
}

fn is_between(low: u16, n: u16, high: u16) -> bool
    ensures { result ≡ between low n high }
{
    (low <= n) & (n <= high)
}

// One more, 0 after the last.
pub fn next_of(n: u16, count: u16) -> u16
    ensures { result ≡ following n count }
{
    if (n as u32) + 1 < count as u32 {
        return n + 1;
    }
    0
}
