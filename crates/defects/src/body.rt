// The data fields of one set, built in octets that are lent.
ghost use Rattle.std.specs.Prelude.{◌+◌, ◌*◌, ◌/◌, ◌^◌, ◌<◌, ◌≤◌, max, ◌≡◌, length};
ghost use Rattle.laws.specs.Lists.{written_over};
ghost use Rattle.defects.specs.Field.{slots};
ghost use Rattle.defects.specs.Place.{field_octets};
ghost use Rattle.defects.specs.Encoding.{list_from, flags_for};
ghost use Rattle.defects.specs.EncodeSteps.{Due, RunOf, AllNear, Ordered, octets_in_front, Filled, finished};

use crate::crc::crc;
use crate::defect::{ENTRY_LENGTH, defect_at};
use crate::entries::{ENTRIES, address_of, slots_of};
use crate::front::{COPY, Front};
use crate::judging::CRC_LENGTH;
use crate::place::field_octets;
use crate::storing::put_padded;
use parts::Setup;

// What a map tells besides its defects.
#[derive(Clone, Copy)]
pub(crate) struct Job {
    pub sets: u16,
    // The track of Format Specification Storage.
    pub cylinder: u16,
    pub head: u16,
}

// Where the octets of a set's defects start, and how many defects they are.
#[derive(Clone, Copy)]
pub(crate) struct Run {
    pub at: usize,
    pub count: usize,
}

// One of the defects is out of sequence; the least address that is higher than all of them. Each of the two counts, whatever the other is.
#[derive(Clone, Copy)]
pub(crate) struct Order {
    pub unordered: bool,
    pub least: u64,
}

// The data fields of a set.
pub(crate) const COPIES: usize = 3;

// The flags.
const LAST: u16 = 128;

const OUT_OF_SEQUENCE: u16 = 8;

// Copy 0 of a set, with zeros for its CRC. Returns the least address that is higher than all up to the set's last defect.
pub(crate) fn fill(
    setup: Setup,
    job: Job,
    set: u16,
    least: u64,
    defects: &[u8],
    field: &mut [u8],
) -> u64
    requires { Due setup job defects.now set least × (length field.old ≡ field_octets setup) }
    ensures { Filled setup job defects.now set field.new result }
{
    let run = run_of(setup, set, defects.len());
    let end = run.at + ENTRY_LENGTH * run.count;
    let order = order_of(least, defects, run);
    let front = Front {
        count: 2 * setup.field1 - 2,
        flags: flags_for(set + 1 == job.sets, order.unordered),
        copy: 0,
        sets: job.sets,
        set,
        cylinder: job.cylinder as u32,
        head: job.head,
    };
    field[..ENTRIES].copy_from_slice(&front_octets(front));
    put_padded(field, ENTRIES, &defects[run.at..end]);
    order.least
}

// `size` is the number of octets of all defects.
fn run_of(setup: Setup, set: u16, size: usize) -> Run
    requires { (16 ≤ field_octets setup) × (set * slots (field_octets setup) ≤ size / 12) }
    ensures { RunOf setup set size result }
{
    let each = slots_of(field_octets(setup));
    let first = set as usize * each;
    let left = size / ENTRY_LENGTH - first;
    Run {
        at: ENTRY_LENGTH * first,
        count: each.min(left),
    }
}

fn order_of(least: u64, defects: &[u8], run: Run) -> Order
    requires { (run.at + 12 * run.count ≤ length defects.now) × AllNear (list_from defects.now run.at run.count) }
    ensures { Ordered least (list_from defects.now run.at run.count) result }
{
    let mut unordered = false;
    let mut above = least;
    for i in 0..run.count {
        let address = address_of(defect_at(defects, run.at + ENTRY_LENGTH * i));
        unordered |= address < above;
        above = above.max(address + 1);
    }
    Order {
        unordered,
        least: above,
    }
}

fn flags_for(last: bool, unordered: bool) -> u8
    ensures { result ≡ flags_for last unordered }
{
    (parts::part_of(last, LAST) + parts::part_of(unordered, OUT_OF_SEQUENCE)) as u8
}

fn front_octets(front: Front) -> [u8; ENTRIES]
    ensures { result ≡ octets_in_front front }
{
    let [n0, n1] = front.count.to_be_bytes();
    let [a0, a1] = front.sets.to_be_bytes();
    let [b0, b1] = front.set.to_be_bytes();
    let [c0, c1, c2, c3] = front.cylinder.to_be_bytes();
    let [h0, h1] = front.head.to_be_bytes();
    [
        n0,
        n1,
        front.flags,
        front.copy,
        a0,
        a1,
        b0,
        b1,
        c0,
        c1,
        c2,
        c3,
        h0,
        h1,
    ]
}

// The data field as one of the copies: its number and its CRC.
pub(crate) fn finish(field: &mut [u8], copy: u8)
    requires { 16 ≤ length field.old }
    ensures { field.new ≡ finished copy field.old }
{
    let end = field.len() - CRC_LENGTH;
    field[COPY] = copy;
    let remainder = crc(&field[..end]);
    field[end..].copy_from_slice(&remainder.to_be_bytes());
}
