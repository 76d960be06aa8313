// A data field put into its place: into the octets of a map, or into the sector words.
ghost use Rattle.std.specs.Prelude.{ℕ, ◌+◌, ◌-◌, ◌%◌, ◌≤◌, ◌≡◌, List, ◌++◌, length, replicate};
ghost use Rattle.laws.specs.Lists.{written_at};
ghost use Rattle.parts.specs.declared.setup.Setup.{Setup};
ghost use Rattle.defects.specs.Place.{field_octets};
ghost use Rattle.defects.specs.Sectors.{octet_words, field_start};
ghost use Rattle.defects.specs.EncodeSteps.{octet_start, HasOctets, HasSectors};

use crate::defect::word_at;
use crate::sectors::field_start;
use parts::Setup;

// What a map is put into: the octets of a string, or the sector words of a drive.
pub(crate) trait MapUnit: Copy {
    // Where data field k begins.
    ghost start: { Setup → ℕ → ℕ };

    // Its octets, put there.
    ghost units: { List ℕ → List Self };

    // So many units have its place.
    ghost Fits: { Setup → ℕ → ℕ → Type 0 };

    // Data field k of a map.
    fn put_field(out: &mut [Self], setup: Setup, k: usize, field: &[u8])
        requires { (length field.now ≡ field_octets setup) × Fits setup k (length out.old) }
        ensures { out.new ≡ written_at out.old (start setup k) (units field.now) };
}

impl MapUnit for u8 {
    ghost start = { octet_start };

    ghost units = { λ octets. octets };

    ghost Fits = { HasOctets };

    fn put_field(out: &mut [u8], _setup: Setup, k: usize, field: &[u8]) {
        put(out, k * field.len(), field);
    }
}

impl MapUnit for u16 {
    ghost start = { field_start };

    ghost units = { octet_words };

    ghost Fits = { HasSectors };

    fn put_field(out: &mut [u16], setup: Setup, k: usize, field: &[u8]) {
        store(out, field_start(setup, k), field);
    }
}

// The octets go to the words from the index `at` on, two a word, the first of them the high one.
fn store(words: &mut [u16], at: usize, octets: &[u8])
    requires { at + length (octet_words octets.now) ≤ length words.old }
    ensures { words.new ≡ written_at words.old at (octet_words octets.now) }
{
    for i in 0..octets.len() / 2 {
        words[at + i] = word_at(octets, 2 * i);
    }
}

// The octets go to `out` from the index `at` on. `capture` has such a function too, one octet a turn; neither crate stands on the other.
fn put(out: &mut [u8], at: usize, octets: &[u8])
    requires { (at + length octets.now ≤ length out.old) × (length octets.now % 2 ≡ 0) }
    ensures { out.new ≡ written_at out.old at octets.now }
{
    // Two octets a turn: one a turn would be made a call of `memcpy`, and so would a copy of the slice.
    for i in 0..octets.len() / 2 {
        out[at + 2 * i] = octets[2 * i];
        out[at + 2 * i + 1] = octets[2 * i + 1];
    }
}

// The octets go to `out` from the index `at` on, and zeros behind them.
pub(crate) fn put_padded(out: &mut [u8], at: usize, octets: &[u8])
    requires { at + length octets.now ≤ length out.old }
    ensures { out.new ≡ written_at out.old at (octets.now ++ replicate (length out.old - at - length octets.now) 0) }
{
    // A copy of the slice would be a call of `memcpy`.
    for i in 0..out.len() - at {
        out[at + i] = octets.get(i).copied().unwrap_or(0);
    }
}
