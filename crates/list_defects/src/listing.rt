// The list of a map's defects, from standard input to standard output.
ghost use Rattle.std.specs.Prelude.{◌*◌, ◌≤◌, length};

use defects::{Defect, MapRead};
use parts::Setup;
use std::io;
use std::io::Read;

// The octets stand on the stack. A maker's map is a few sets of at most 6,144 octets each, so this is ample, though the largest cylinder has room
// for sixteen times as much.
const MOST_OCTETS: usize = 1_048_576;

// One more is read, so that a longer map shows.
pub(crate) const INPUT_LENGTH: usize = MOST_OCTETS + 1;

// Each defect stands three times in a map.
pub(crate) const DEFECTS_LENGTH: usize = MOST_OCTETS / 3;

const DEFECT_LENGTH: usize = 12;

// Reads a map from standard input and writes the list of its defects to standard output, and nothing else there. Input that was not read to its
// end is not a short map: a line on standard error says so.
pub(crate) fn list_input(
    rt: &(impl Input + Print + Eprint),
    setup: Setup,
    octets: &mut [u8],
    defects: &mut [u8],
) {
    let mut input = rt.reader();
    let count = reading::read_full(&mut input, octets);
    if MOST_OCTETS < count {
        tell_unless(rt, println!(rt; "too long"));
        return;
    }
    if !is_at_end(&mut input) {
        let _ = eprintln!(rt; "list_defects: standard input was not read to its end");
        return;
    }
    tell_unless(rt, list(rt, setup, &octets[..count], defects));
}

// Neither an octet more nor a failure.
fn is_at_end(input: &mut impl Read) -> bool {
    matches!(input.read(&mut [0]), Ok(0))
}

// A failed write is not a success: a line on standard error says so.
pub(crate) fn tell_unless(rt: &impl Eprint, written: io::Result<()>) {
    if written.is_err() {
        let _ = eprintln!(rt; "list_defects: standard output was not written whole");
    }
}

// The list of the map in the octets, or the refusal.
fn list(rt: &impl Print, setup: Setup, octets: &[u8], defects: &mut [u8]) -> io::Result<()> {
    match defects::decode_map(setup, octets, defects) {
        Ok(
            MapRead {
                count,
                storage_cylinder,
                storage_head,
            },
        ) => say_map(rt, storage_cylinder, storage_head, count, defects),
        Err(offence) => {
            println!(rt;
                "refused {} at {}",
                u8::from(offence.refusal),
                offence.offset
            )
        }
    }
}

fn say_map(
    rt: &impl Print,
    cylinder: u16,
    head: u16,
    count: usize,
    defects: &[u8],
) -> io::Result<()>
    requires { 12 * count ≤ length defects.now }
{
    println!(rt; "storage {cylinder} {head}")?;
    say_each(rt, count, defects)?;
    println!(rt; "defects {count}")
}

fn say_each(rt: &impl Print, count: usize, defects: &[u8]) -> io::Result<()>
    requires { 12 * count ≤ length defects.now }
{
    for i in 0..count {
        let at = DEFECT_LENGTH * i;
        let end = at + DEFECT_LENGTH;
        // Twelve octets are never refused.
        say_defect(rt, defects::decode_defect(&defects[at..end]).unwrap())?;
    }
    Ok(())
}

fn say_defect(rt: &impl Print, defect: Defect) -> io::Result<()> {
    let Defect {
        cylinder,
        head,
        offset,
        length,
    } = defect;
    println!(rt; "{cylinder} {head} {offset} {length}")
}
