// Arguments by place: calls whose arguments of one type differ, so that two of them changed over give another answer.
use crate::tally::Tally;
use drive::{Answer, Drive};
use lines::{Followed, Follower};
use parts::{Event, Setup};

pub(crate) fn run(tally: Tally) -> Tally {
    tally
        .case("the settings that have a name", has_settings())
        .case("Position 2/3/4 by the call of one event", positions())
        .case("that drive by value, and a selection", powers_up())
        .case("a follower by value", follows())
}

// "IDLE 0, MAINT 1, REQUEST 4, DESEL 8, SELECT 16, SLAVEND 20, SLAVACK 24, BUSCTL 25, MASTEND 26, BUSACK 27, XFRRDY 28, XFRST 30.
// Settings 31 and 29 finish one word's handshake."
fn has_settings() -> bool {
    let settings = [
        lines::IDLE,
        lines::MAINT,
        lines::REQUEST,
        lines::DESEL,
        lines::SELECT,
        lines::SLAVEND,
        lines::SLAVACK,
        lines::BUSCTL,
        lines::MASTEND,
        lines::BUSACK,
        lines::XFRRDY,
        lines::XFRST,
        lines::XFRRES,
        lines::XFREND,
    ];
    settings == [0, 1, 4, 8, 16, 20, 24, 25, 26, 27, 28, 30, 31, 29]
}

// Port 1, kind 7, and the octets 0, 2, 3 and 4. The drive has 3 cylinders, 4 heads, 5 sectors of 0, 1 and 2 words, address 6.
fn positions() -> bool {
    let mut state = [
        3, 4, 5, 0, 1, 2, 6, 1, 1, 0, 0, 0, 0, 0xFFFF, 0, 0, 0, 0, 0, 0, 0,
    ];
    let refusal = pantoglide::pg_event(
        &mut state,
        1,
        7,
        0,
        2,
        3,
        4,
        &mut [0u16; 180],
        &mut [0u16; 3],
        &mut [0u16; 13],
    );
    (refusal == 0)
        & (state
            == [
                3, 4, 5, 0, 1, 2, 6, 1, 1, 0, 2, 3, 4, 0xFFFF, 0, 0, 0, 0, 0, 0, 0,
            ])
}

fn powers_up() -> bool {
    let setup = Setup {
        cylinders: 3,
        heads: 4,
        sectors: 5,
        header: 0,
        field1: 1,
        field2: 2,
        address: 6,
    };
    match drive::power_up(setup, &[0u16; 180], &[0u16; 3]) {
        Ok(drive) => (drive.setup == setup) & is_granted(drive),
        Err(_) => false,
    }
}

// Refused with 10 where the sector and staging words are changed over.
fn is_granted(drive: Drive) -> bool {
    let select = Event {
        port: 0,
        kind: 1,
        a0: 0x60,
        a1: 0,
        a2: 0,
        a3: 0,
    };
    let outcome = events::handle(drive, select, &mut [0u16; 180], &mut [0u16; 3]);
    matches!(outcome.answer, Answer::Done)
}

// From IDLE to SELECT, which is then remembered.
fn follows() -> bool {
    let followed = Follower::start().step(16);
    let expected = Follower {
        setting: 16,
        history: true,
        lost: false,
    };
    (followed.answer == Ok(lines::Answer::Controllers)) & (followed.follower == expected)
}
