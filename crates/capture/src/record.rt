// A record of a capture: one event, 8 octets.
ghost use Rattle.capture.specs.Record.{DecodedRecord, EncodedRecord};

use refusals::Refusal;

#[derive(Clone, Copy, Debug, PartialEq, Eq)]
pub struct Record {
    pub tick: u16,
    pub port: u8,
    pub kind: u8,
    pub a0: u8,
    pub a1: u8,
    pub a2: u8,
    pub a3: u8,
}

pub const RECORD_LENGTH: usize = 8;

// The record in the first 8 octets. 10 where there are fewer. Any 8 octets are a record, so there is no 8.
#[tactic(auto, using(laws::proofs::Runs::run_read), unfolding(crate::specs::Record::record_of, laws::specs::Pick::pick))]
pub fn decode_record(octets: &[u8]) -> Result<Record, Refusal>
    ensures { DecodedRecord octets.now result }
{
    let [high, low, port, kind, a0, a1, a2, a3, ..] = *octets else {
        return Err(Refusal::SliceTooShort);
    };
    Ok(Record {
        tick: u16::from_be_bytes([high, low]),
        port,
        kind,
        a0,
        a1,
        a2,
        a3,
    })
}

// The record as the first 8 octets, the others as they were. 10 where there are fewer. Every record is what a decoding
// yields, so there is no 8.
#[tactic(auto, unfolding(laws::specs::Pick::pick))]
pub fn encode_record(event: Record, octets: &mut [u8]) -> Result<(), Refusal>
    ensures { EncodedRecord event octets.old octets.new result }
{
    if octets.len() < RECORD_LENGTH {
        return Err(Refusal::SliceTooShort);
    }
    let Record {
        tick,
        port,
        kind,
        a0,
        a1,
        a2,
        a3,
    } = event;
    let [high, low] = tick.to_be_bytes();
    octets[..RECORD_LENGTH].copy_from_slice(&[high, low, port, kind, a0, a1, a2, a3]);
    Ok(())
}
