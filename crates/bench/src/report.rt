// A replay: the report of a capture, or of a part of it, in a lent slice.
ghost use Rattle.std.specs.Prelude.{◌+◌, ◌%◌, ◌≤◌, [], ◌++◌, ◌≡◌, length};
ghost use Rattle.numbers.specs.Number.{number_in};
ghost use Rattle.bench.specs.declared.report.Wanted.TheVariants.{All};
ghost use Rattle.bench.specs.Report.{run_of, report_of, part_report_of, Reported};

use crate::text::Text;
use crate::{part, run, text};
use refusals::Refusal;

// What of a capture is replayed. The definition of a report takes it.
#[derive(Clone, Copy)]
pub enum Wanted {
    All,
    // From the record with this index on, at most so many.
    Stretch(u32, u32),
}

const LONGEST_CAPTURE: usize = 65_536;

// The report at the front of `text`, the rest of it as it was, and how many octets it has. 10 where `text` cannot hold it. The
// report is made in a buffer of its own first: how long it is shows at its end, and a refusal changes nothing.
pub fn replay(octets: &[u8], text: &mut [u8]) -> Result<usize, Refusal>
    ensures { Reported (report_of All octets.now) text.old text.new result }
{
    let mut report = Text::new();
    put_report(&mut report, octets, Wanted::All);
    hand_over(&report, text)
}

// The same of a part: `from` and `limit` are the digits of its arguments.
pub fn replay_part(
    from: &[u8],
    limit: &[u8],
    octets: &[u8],
    text: &mut [u8],
) -> Result<usize, Refusal>
    ensures { Reported (part_report_of (number_in from.now) (number_in limit.now) octets.now) text.old text.new result }
{
    let mut report = Text::new();
    match (numbers::number_of(from), numbers::number_of(limit)) {
        (Some(first), Some(most)) => put_report(&mut report, octets, Wanted::Stretch(first, most)),
        _ => text::put(&mut report, b"bad arguments\n"),
    }
    hand_over(&report, text)
}

#[tactic(auto, unfolding(laws::specs::Pick::pick))]
fn hand_over(report: &[u8], text: &mut [u8]) -> Result<usize, Refusal>
    ensures { Reported report.now text.old text.new result }
{
    if text.len() < report.len() {
        return Err(Refusal::SliceTooShort);
    }
    text[..report.len()].copy_from_slice(report);
    Ok(report.len())
}

// A text that is still empty has room for any report.
fn put_report(text: &mut Text, octets: &[u8], wanted: Wanted)
    requires { text.old.items ≡ [] }
    ensures { text.new.items ≡ report_of wanted octets.now }
{
    if LONGEST_CAPTURE < octets.len() {
        text::put(text, b"too long\n");
        return;
    }
    match capture::decode_capture(octets) {
        Ok(_) => put_wanted(text, capture::records(octets), wanted),
        Err(refusal) => text::put_numbered(text, b"refused ", usize::from(u8::from(refusal))),
    }
}

fn put_wanted(text: &mut Text, records: &[u8], wanted: Wanted)
    requires { (length text.old.items + length (run_of wanted records.now) ≤ 163850) × (length records.now ≤ 65528) × (length records.now % 8 ≡ 0) }
    ensures { text.new.items ≡ text.old.items ++ run_of wanted records.now }
{
    match wanted {
        Wanted::All => run::put_run(text, records),
        Wanted::Stretch(from, limit) => part::put_part(text, records, from, limit),
    }
}
