// An event of a port, and what its octets say.
ghost use Rattle.std.specs.Prelude.{◌≡◌};
ghost use Rattle.parts.specs.Kind.{none_after1, none_after2, none_at_all, word_of};
ghost use Rattle.parts.specs.Tests.{is_misaddressed, changes_mode};

// Four fields and no array: the definitions name each.
#[derive(Clone, Copy, Debug, PartialEq, Eq)]
pub struct Event {
    pub port: u8,
    pub kind: u8,
    pub a0: u8,
    pub a1: u8,
    pub a2: u8,
    pub a3: u8,
}

impl Event {
    pub fn none_after_1(self) -> bool
        ensures { result ≡ none_after1 self }
    {
        (self.a1 == 0) & (self.a2 == 0) & (self.a3 == 0)
    }

    pub fn none_after_2(self) -> bool
        ensures { result ≡ none_after2 self }
    {
        (self.a2 == 0) & (self.a3 == 0)
    }

    pub fn none_at_all(self) -> bool
        ensures { result ≡ none_at_all self }
    {
        (self.a0 == 0) & (self.a1 == 0) & (self.a2 == 0) & (self.a3 == 0)
    }

    // A word of two octets, high first. By `from_be_bytes` (tried) a word to the host or from it takes two instructions more in `pg_run`.
    pub fn word(self) -> u16
        ensures { result ≡ word_of self }
    {
        self.a0 as u16 * 256 + self.a1 as u16
    }
}

pub fn is_misaddressed(octet: u8, address: u16) -> bool
    ensures { result ≡ is_misaddressed octet address }
{
    (octet / 128 % 2 == 1) | ((octet / 16 % 8) as u16 != address)
}

pub fn changes_mode(octet: u8) -> bool
    ensures { result ≡ changes_mode octet }
{
    (octet / 8 % 2 == 1) | (octet / 4 % 2 == 1)
}
