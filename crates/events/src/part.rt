// A replay that stops on request: so many of a capture's records, from one of them on, and the ticks between neighbours.
ghost use Rattle.std.specs.Prelude.{◌≡◌, ◌+◌, ◌-◌, ◌*◌, ◌<◌, ◌≤◌, min, length};
ghost use Rattle.laws.specs.Lists.{written_over, table_from};
ghost use Rattle.events.specs.Part.{tick_at, gap_at, PartOnWords};

use crate::{answer_words, batch, event, state};
use refusals::Refusal;

// How many events were run: at most `limit`, from the record with the index `from` on; 13 words for each answer, and a gap for each event. 10 where a slice is too
// short for what will be run, 8 where the records are not whole.
pub fn replay_part(
    state: &mut [u16],
    records: &[u8],
    from: usize,
    limit: usize,
    sectors: &mut [u16],
    staging: &mut [u16],
    answers: &mut [u16],
    gaps: &mut [u16],
) -> Result<usize, Refusal>
    ensures { PartOnWords state.old records.now from limit sectors.old staging.old answers.old gaps.old result state.new sectors.new staging.new answers.new gaps.new }
{
    let count = count_within(records.len() / event::RECORD_OCTETS, from, limit);
    if (state.len() < state::STATE_WORDS)
        | (answers.len() / answer_words::ANSWER_WORDS < count)
        | (gaps.len() < count)
    {
        return Err(Refusal::SliceTooShort);
    }
    if records.len() % event::RECORD_OCTETS != 0 {
        return Err(Refusal::Malformed);
    }
    if count == 0 {
        return Ok(0);
    }
    let start = event::RECORD_OCTETS * from;
    put_gaps(records, from, count, gaps);
    batch::work(
        state,
        true,
        count,
        &records[start..],
        sectors,
        staging,
        answers,
    )?;
    Ok(count)
}

// How many of so many records there are from one on, within the limit.
fn count_within(record_count: usize, from: usize, limit: usize) -> usize
    ensures { result ≡ min limit (record_count - from) }
{
    if record_count <= from {
        return 0;
    }
    let left = record_count - from;
    if left < limit { left } else { limit }
}

fn put_gaps(records: &[u8], from: usize, count: usize, gaps: &mut [u16])
    requires { (0 < count) × (8 * (from + count) ≤ length records.now) × (count ≤ length gaps.old) }
    ensures { gaps.new ≡ written_over gaps.old (table_from (gap_at records.now) from count) }
{
    let mut earlier = tick_before(records, from);
    for i in 0..count {
        let later = tick_at(records, from + i);
        gaps[i] = std::num::wrapping_sub_u16(later, earlier);
        earlier = later;
    }
}

// The first record has none before it: its own tick, which leaves a gap of 0.
fn tick_before(records: &[u8], index: usize) -> u16
    requires { 8 * index + 8 ≤ length records.now }
    ensures { result ≡ tick_at records.now (index - 1) }
{
    if index == 0 {
        return tick_at(records, 0);
    }
    tick_at(records, index - 1)
}

fn tick_at(records: &[u8], index: usize) -> u16
    requires { 8 * index + 8 ≤ length records.now }
    ensures { result ≡ tick_at records.now index }
{
    let at = event::RECORD_OCTETS * index;
    state::word(records[at], records[at + 1])
}
