// Reads a capture from standard input and writes the report of its replay to standard output, and nothing else there.
#![tactic(auto)]

fn main(rt: HostRuntime) {
    let mut octets = [0u8; reading::INPUT_LENGTH];
    let mut text = [0u8; bench::LONGEST_REPORT];
    reading::replay_input(&rt, &mut octets, &mut text);
}
