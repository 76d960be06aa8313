// Runs the bench cases of document 01 that are not marked P, the worked cases of M-100 and M-102, those of M-103, the traces of M-104 and
// further ones through the public calls, and compares.
#![tactic(auto)]

mod bench;
mod by_place;
mod calls;
mod capture_cases;
mod code_cases;
mod command_cases;
mod control_cases;
mod event;
mod event_refusal_cases;
mod handed_cases;
mod holding_cases;
mod ignored_cases;
mod line_cases;
mod octets;
mod part_cases;
mod power;
mod reserve_cases;
mod response_cases;
mod row;
mod setup_cases;
mod state_cases;
mod status_cases;
mod tally;
mod trace_cases;
mod traces;
mod transfer_cases;
mod watch;

use tally::Tally;

fn main(rt: HostRuntime) {
    let lines = line_cases::run(Tally::none(rt.stdout()));
    let traces = trace_cases::run(lines);
    let controls = control_cases::run(traces);
    let transfers = transfer_cases::run(controls);
    let holdings = holding_cases::run(transfers);
    let reserves = reserve_cases::run(holdings);
    let commands = command_cases::run(reserves);
    let responses = response_cases::run(commands);
    let ignored = ignored_cases::run(responses);
    let codes = code_cases::run(ignored);
    let event_refusals = event_refusal_cases::run(codes);
    let setups = setup_cases::run(event_refusals);
    let states = state_cases::run(setups);
    let handed = handed_cases::run(states);
    let statuses = status_cases::run(handed);
    let captures = capture_cases::run(statuses);
    let parts = part_cases::run(captures);
    by_place::run(parts).told();
}
