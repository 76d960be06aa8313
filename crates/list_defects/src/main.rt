// Lists the defects of a map. Its arguments are the drive's cylinders, heads, sectors per track and words of field 1, in decimal; on standard input
// stand the octets of the map's data fields. It writes the storage track, a line for each defect (cylinder, head, offset, length), and their number:
//   storage C H
//   C H OFFSET LENGTH
//   defects N
// or one line alone: `refused N at OFFSET`, `bad arguments`, or `too long`.
#![tactic(auto)]

mod arguments;
mod listing;

fn main(rt: HostRuntime) {
    let mut octets = [0u8; listing::INPUT_LENGTH];
    let mut defects = [0u8; listing::DEFECTS_LENGTH];
    match arguments::read_arguments(&rt) {
        Some(setup) => listing::list_input(&rt, setup, &mut octets, &mut defects),
        None => listing::tell_unless(&rt, println!(rt; "bad arguments")),
    }
}
