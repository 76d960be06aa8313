// A defect: 12 octets, both ways, and its place in the order of defects.
ghost use Rattle.std.specs.Prelude.{◌+◌, ◌≤◌, ◌≡◌, length};
ghost use Rattle.laws.specs.Lists.{written_over};
ghost use Rattle.defects.specs.Defect.{number_at, defect_at, defect_octets, is_blank, DecodedDefect, EncodedDefect};

use refusals::Refusal;

#[derive(Clone, Copy, Debug, Default, PartialEq, Eq)]
pub struct Defect {
    pub cylinder: u32,
    pub head: u16,
    pub offset: u32,
    pub length: u16,
}

pub(crate) const ENTRY_LENGTH: usize = 12;

// The defect in the first 12 octets. 10 where there are fewer. Any 12 octets are a defect, so there is no 8.
pub fn decode_defect(octets: &[u8]) -> Result<Defect, Refusal>
    ensures { DecodedDefect octets.now result }
{
    if octets.len() < ENTRY_LENGTH {
        return Err(Refusal::SliceTooShort);
    }
    Ok(defect_at(octets, 0))
}

// The defect as the first 12 octets, the others as they were. 10 where there are fewer. Every defect is what a decoding
// yields, so there is no 8.
pub fn encode_defect(defect: Defect, octets: &mut [u8]) -> Result<(), Refusal>
    ensures { EncodedDefect defect octets.old octets.new result }
{
    if octets.len() < ENTRY_LENGTH {
        return Err(Refusal::SliceTooShort);
    }
    write_defect(defect, octets);
    Ok(())
}

pub(crate) fn write_defect(defect: Defect, octets: &mut [u8])
    requires { 12 ≤ length octets.old }
    ensures { octets.new ≡ written_over octets.old (defect_octets defect) }
{
    octets[..ENTRY_LENGTH].copy_from_slice(&defect_octets(defect));
}

fn defect_octets(defect: Defect) -> [u8; ENTRY_LENGTH]
    ensures { result ≡ defect_octets defect }
{
    let [c0, c1, c2, c3] = defect.cylinder.to_be_bytes();
    let [h0, h1] = defect.head.to_be_bytes();
    let [o0, o1, o2, o3] = defect.offset.to_be_bytes();
    let [l0, l1] = defect.length.to_be_bytes();
    [c0, c1, c2, c3, h0, h1, o0, o1, o2, o3, l0, l1]
}

pub(crate) fn defect_at(octets: &[u8], at: usize) -> Defect
    requires { at + 12 ≤ length octets.now }
    ensures { result ≡ defect_at at octets.now }
{
    Defect {
        cylinder: long_at(octets, at),
        head: word_at(octets, at + 4),
        offset: long_at(octets, at + 6),
        length: word_at(octets, at + 10),
    }
}

pub(crate) fn word_at(octets: &[u8], at: usize) -> u16
    requires { at + 2 ≤ length octets.now }
    ensures { result ≡ number_at 2 at octets.now }
{
    u16::from_be_bytes([octets[at], octets[at + 1]])
}

pub(crate) fn long_at(octets: &[u8], at: usize) -> u32
    requires { at + 4 ≤ length octets.now }
    ensures { result ≡ number_at 4 at octets.now }
{
    u32::from_be_bytes([octets[at], octets[at + 1], octets[at + 2], octets[at + 3]])
}

pub(crate) fn is_blank(d: Defect) -> bool
    ensures { result ≡ is_blank d }
{
    d == Defect::default()
}
