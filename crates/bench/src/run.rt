// The run of a capture's records over the bench drive, each event by the drive's own call.
ghost use Rattle.std.specs.Prelude.{◌+◌, ◌≤◌, ◌++◌, ◌≡◌, length, drop};
ghost use Rattle.drive.specs.Run.{machine};
ghost use Rattle.drive.specs.Batch.{event_of, events_of};
ghost use Rattle.bench.specs.Run.{lines_of_run, run_report};

use crate::text::Text;
use crate::{line, text};
use capture::RECORD_LENGTH;
use drive::Drive;
use parts::{Event, Setup};

pub(crate) const BENCH: Setup = Setup {
    cylinders: 2,
    heads: 2,
    sectors: 3,
    header: 1,
    field1: 2,
    field2: 1,
    address: 3,
};

// The number of events, a line for each, and the owner after the last.
pub(crate) fn put_run(text: &mut Text, records: &[u8])
    requires { length text.old.items + length (run_report records.now) ≤ 163850 }
    ensures { text.new.items ≡ text.old.items ++ run_report records.now }
{
    let mut sectors = [0u16; 48];
    let mut staging = [0u16; 4];
    text::put_numbered(text, b"events ", records.len() / RECORD_LENGTH);
    match drive::power_up(BENCH, &sectors, &staging) {
        Ok(bench) => put_lines(text, bench, records, &mut sectors, &mut staging),
        // The set-up is within its limits, and the words are enough.
        Err(_) => unreachable!(),
    }
}

fn put_lines(
    text: &mut Text,
    bench: Drive,
    records: &[u8],
    sectors: &mut [u16],
    staging: &mut [u16],
)
    requires { length text.old.items + length (lines_of_run 1 (machine bench sectors.old staging.old) (events_of records.now)) ≤ 163850 }
    ensures { text.new.items ≡ text.old.items ++ lines_of_run 1 (machine bench sectors.old staging.old) (events_of records.now) }
{
    let mut drive = bench;
    for i in 0..records.len() / RECORD_LENGTH {
        let event = event_at(records, i * RECORD_LENGTH);
        let outcome = events::handle(drive, event, sectors, staging);
        line::put_line(text, i + 1, event.port, outcome.answer);
        drive = outcome.drive;
    }
    line::put_owner(text, drive.holding.owner);
}

// The event of the record that starts at an index, as `capture` decodes it.
fn event_at(records: &[u8], at: usize) -> Event
    requires { at + 8 ≤ length records.now }
    ensures { result ≡ event_of (drop at records.now) }
{
    let record = capture::decode_record(&records[at..]).unwrap();
    Event {
        port: record.port,
        kind: record.kind,
        a0: record.a0,
        a1: record.a1,
        a2: record.a2,
        a3: record.a3,
    }
}
