// A capture put together in a lent slice: notes, records, and the trailer that says where the records start.
ghost use Rattle.std.specs.Prelude.{◌+◌, ◌≤◌, ◌≡◌, ltb, length};
ghost use Rattle.laws.specs.Lists.{written_over, written_at};
ghost use Rattle.capture.specs.Encoding.{capture_length, capture_octets, trailer_for, EncodedCapture};

use crate::capture::{MARK, TRAILER_LENGTH};
use crate::record::RECORD_LENGTH;
use refusals::Refusal;

// Notes, records and their trailer at the front of `out`, the rest of it as it was, and how many octets they are. 10 where
// `out` cannot hold them, 8 where the records are not whole or the trailer cannot tell how long they are.
pub fn encode_capture(notes: &[u8], records: &[u8], out: &mut [u8]) -> Result<usize, Refusal>
    ensures { EncodedCapture notes.now records.now out.old out.new result }
{
    if lacks_room(out.len(), notes.len(), records.len()) {
        return Err(Refusal::SliceTooShort);
    }
    if records.len() % RECORD_LENGTH != 0 {
        return Err(Refusal::Malformed);
    }
    let Ok(distance) = u32::try_from(records.len()) else {
        return Err(Refusal::Malformed);
    };
    let body = notes.len() + records.len();
    put(out, 0, notes);
    put(out, notes.len(), records);
    put(out, body, &trailer_for(distance));
    Ok(body + TRAILER_LENGTH)
}

// Tested step by step: the sum of the lengths may be too large for a number.
fn lacks_room(room: usize, notes: usize, records: usize) -> bool
    ensures { result ≡ ltb room (notes + records + 8) }
{
    if room < TRAILER_LENGTH {
        return true;
    }
    let left = room - TRAILER_LENGTH;
    if left < notes {
        return true;
    }
    left - notes < records
}

fn trailer_for(distance: u32) -> [u8; TRAILER_LENGTH]
    ensures { result ≡ trailer_for distance }
{
    let [d0, d1, d2, d3] = distance.to_be_bytes();
    let [m0, m1, m2, m3] = MARK;
    [d0, d1, d2, d3, m0, m1, m2, m3]
}

// The octets go to `out` from the index `at` on, as in `defects`, which does not stand on this crate. Octet by octet: with `copy_from_slice` the archive calls memmove, and it has to call nothing.
fn put(out: &mut [u8], at: usize, octets: &[u8])
    requires { at + length octets.now ≤ length out.old }
    ensures { out.new ≡ written_at out.old at octets.now }
{
    for (i, &octet) in octets.iter().enumerate() {
        out[at + i] = octet;
    }
}
