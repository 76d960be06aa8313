// What the programs do with their arguments, and with standard input and output.
#![tactic(auto)]

ghost use Rattle.std.specs.Prelude.{◌≡◌, ◌≤◌, ◌<◌, IfOk, length};
ghost use Rattle.numbers.specs.Number.{number_in};
ghost use Rattle.bench.specs.Report.{report_of, part_report_of};
ghost use Rattle.bench.specs.declared.report.Wanted.TheVariants.{All};
ghost use Rattle.reading.specs.Arguments.{is_given, has_arguments};
ghost use Rattle.reading.specs.Input.{InputReplayed, ReadFull};

use refusals::Refusal;
use std::env::FillError;
use std::io;
use std::io::Read;

// The longest capture has 65,536 octets. One more is read, so that a longer one shows: if no more were read than may be there, the front of a capture
// that is too long would be replayed as if it were whole.
pub const INPUT_LENGTH: usize = 65_537;

// Reads a capture from standard input and writes the report of its replay to standard output, and nothing else there. How many octets were read.
pub fn replay_input(rt: &(impl Input + Print + Eprint), octets: &mut [u8], text: &mut [u8]) -> usize
    ensures { InputReplayed (report_of All) octets.new text.old result text.new }
{
    let mut input = rt.reader();
    let count = read_full(&mut input, octets);
    let end = input.read(&mut [0]);
    let replayed = bench::replay(&octets[..count], text);
    tell(rt, "replay", end, replayed, &text[..]);
    count
}

// The same of a part (the two have four lines in common, and differ in what is read before and reported after), whose arguments are lent as their digits. Where they are no two numbers, nothing is read: who forgot them is told at once.
pub fn part_input(
    rt: &(impl Input + Print + Eprint),
    from: &[u8],
    limit: &[u8],
    octets: &mut [u8],
    text: &mut [u8],
) -> usize
    ensures { InputReplayed (part_report_of (number_in from.now) (number_in limit.now)) octets.new text.old result text.new }
{
    if numbers::number_of(from).is_none() || numbers::number_of(limit).is_none() {
        let replayed = bench::replay_part(from, limit, &octets[..0], text);
        tell(rt, "part", Ok(0), replayed, &text[..]);
        return 0;
    }
    let mut input = rt.reader();
    let count = read_full(&mut input, octets);
    let end = input.read(&mut [0]);
    let replayed = bench::replay_part(from, limit, &octets[..count], text);
    tell(rt, "part", end, replayed, &text[..]);
    count
}

// Are there just so many arguments? By what reading the last of them gives, and the one behind it.
pub fn has_arguments(last: Result<usize, FillError>, behind: Result<usize, FillError>) -> bool
    ensures { result ≡ has_arguments last behind }
{
    is_given(last) & !is_given(behind)
}

fn is_given(read: Result<usize, FillError>) -> bool
    ensures { result ≡ is_given read }
{
    !matches!(read, Err(FillError::NotPresent))
}

// Reads until the octets are full, or the input ends or a read fails. Behind the octets that were asked for, one more read tells an end from a failure.
pub fn read_full<R: Read>(input: &mut R, octets: &mut [u8]) -> usize
    ensures { ReadFull (R.remaining input.old) (R.remaining input.new) octets.new result }
{
    // By `read`: after an early end `read_exact` does not tell how many octets there were.
    let mut count = 0;
    while count < octets.len() {
        match input.read(&mut octets[count..]) {
            Ok(0) | Err(_) => break,
            Ok(more) => count += more,
        }
    }
    count
}

// A failed read is not a short capture, and a failed write is not a success: a line on standard error says so.
fn tell(
    rt: &(impl Print + Eprint),
    program: &str,
    end: io::Result<usize>,
    replayed: Result<usize, Refusal>,
    text: &[u8],
)
    requires { IfOk replayed (λ size. size ≤ length text.now) }
{
    let Ok(size) = replayed else {
        // The text is too short for the report.
        return;
    };
    if end.is_err() {
        say(rt, program, "standard input was not read to its end");
        return;
    }
    if rt.write_all(&text[..size]).is_err() {
        say(rt, program, "the report was not written whole");
    }
}

// A line that standard error does not take is let go.
fn say(rt: &impl Eprint, program: &str, what: &str) {
    let _ = eprintln!(rt; "{program}: {what}");
}
