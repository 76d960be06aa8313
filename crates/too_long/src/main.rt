// The replay once more, for the gate to run on one octet more than a capture may have: its file `stdin` is 65,537 zeros.
#![tactic(auto)]

fn main(rt: HostRuntime) {
    let mut octets = [0u8; reading::INPUT_LENGTH];
    let mut text = [0u8; bench::LONGEST_REPORT];
    reading::replay_input(&rt, &mut octets, &mut text);
}
