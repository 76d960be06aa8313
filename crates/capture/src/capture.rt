// A capture: notes, records, and a trailer that says where the records start.
ghost use Rattle.std.specs.Prelude.{◌≡◌, length, take, drop};
ghost use Rattle.laws.specs.Octets.{number_of};
ghost use Rattle.laws.specs.Lists.{same_list};
ghost use Rattle.capture.specs.Capture.{DecodedCapture, NotesGiven, RecordsGiven, mark};

use crate::record::RECORD_LENGTH;
use refusals::Refusal;

// Where the first record of a capture starts, and how many records there are.
#[derive(Clone, Copy, Debug, PartialEq, Eq)]
pub struct Capture {
    pub first: usize,
    pub count: usize,
}

pub(crate) const TRAILER_LENGTH: usize = 8;

pub(crate) const MARK: [u8; 4] = [0x49, 0x50, 0x49, 0x32];

// What the trailer says of a capture. 12 where there is no trailer, 13 where its mark is wrong, 14 where its distance is no
// whole number of records or goes back before the first octet.
pub fn decode_capture(octets: &[u8]) -> Result<Capture, Refusal>
    ensures { DecodedCapture octets.now result }
{
    let Some((body, trailer)) = octets.split_last_chunk::<TRAILER_LENGTH>() else {
        return Err(Refusal::NoTrailer);
    };
    if !has_mark(trailer) {
        return Err(Refusal::WrongMark);
    }
    let distance = distance_of(trailer);
    if distance % RECORD_LENGTH != 0 || body.len() < distance {
        return Err(Refusal::WrongDistance);
    }
    Ok(Capture {
        first: body.len() - distance,
        count: distance / RECORD_LENGTH,
    })
}

// The notes of a capture: the octets before the first record. None where it is refused.
pub fn notes(octets: &[u8]) -> &[u8]
    ensures { NotesGiven octets.now result.now }
{
    match decode_capture(octets) {
        Ok(capture) => &octets[..capture.first],
        Err(_) => &[],
    }
}

// The records of a capture. None where it is refused.
pub fn records(octets: &[u8]) -> &[u8]
    ensures { RecordsGiven octets.now result.now }
{
    match decode_capture(octets) {
        Ok(capture) => &octets[capture.first..octets.len() - TRAILER_LENGTH],
        Err(_) => &[],
    }
}

fn has_mark(trailer: &[u8; TRAILER_LENGTH]) -> bool
    ensures { result ≡ same_list (drop 4 trailer.now) mark }
{
    // Octet by octet: a comparison of slices is a call, of more than half the instructions of `pg_capture` besides.
    (trailer[4] == MARK[0])
        & (trailer[5] == MARK[1])
        & (trailer[6] == MARK[2])
        & (trailer[7] == MARK[3])
}

fn distance_of(trailer: &[u8; TRAILER_LENGTH]) -> usize
    ensures { result ≡ number_of (take 4 trailer.now) }
{
    u32::from_be_bytes([trailer[0], trailer[1], trailer[2], trailer[3]]) as usize
}
