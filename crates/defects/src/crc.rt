// The CRC-16 of a data field, an octet at a time.
ghost use Rattle.std.specs.Prelude.{ℕ, ◌≡◌, List, [], ◌∷◌, ◌++◌};
ghost use Rattle.defects.specs.Crc.{crc_of};

use crate::crc_table::crc_table;

pub(crate) fn crc(octets: &[u8]) -> u16
    ensures { result ≡ crc_of octets.now }
{
    let mut register: u16 = 0;
    for octet in octets {
        register = one_more(register, *octet);
    }
    register
}

// From the CRC of the octets read so far to that with one more behind them: one look-up.
fn one_more(register: u16, octet: u8) -> u16
    ensures { (read : List ℕ) → register ≡ crc_of read → result ≡ crc_of (read ++ (octet ∷ [])) }
{
    let at = (register / 256) as usize ^ octet as usize;
    crc_table()[at] ^ register % 256 * 256
}
