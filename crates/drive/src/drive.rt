// The drive's state, by value, and what changes it: selection, deselection, reset and holds by command hand the new state back.
ghost use Rattle.std.specs.Prelude.{◌≡◌};
ghost use Rattle.laws.specs.Pick.{pick};
ghost use Rattle.parts.specs.Holding.{at_least_plain, with_hold};
ghost use Rattle.drive.specs.State.{with_holding, posted_on};
ghost use Rattle.drive.specs.Drive.{owner_noticed, selected, deselected, after_reset, reserved, priority_reserved, unreserved};

use parts::{Hold, Holding, Pending, Place, Setup, Transfer};

#[derive(Clone, Copy, Debug, PartialEq, Eq)]
pub struct Drive {
    pub setup: Setup,
    pub holding: Holding,
    pub place: Place,
    pub target: u16,
    pub transfer: Transfer,
    // Two fields and no array: `row11`, `posted_on` and the laws name both.
    pub pending0: Pending,
    pub pending1: Pending,
}

impl Drive {
    fn posted_on(self, port: u16, pending: Pending) -> Drive
        ensures { result ≡ posted_on self port pending }
    {
        let q0 = chosen(port == 0, pending, self.pending0);
        let q1 = chosen(port == 0, self.pending1, pending);
        Drive {
            pending0: q0,
            pending1: q1,
            ..self
        }
    }

    // A granted selection.
    pub fn select(self, port: u16, octet: u8) -> Drive
        ensures { result ≡ selected self port octet }
    {
        Drive {
            holding: parts::granted_to(port, octet),
            transfer: parts::no_transfer(),
            ..self.owner_noticed(port)
        }
    }

    pub fn deselect(self) -> Drive
        ensures { result ≡ deselected self }
    {
        Drive {
            holding: self.holding.released(),
            ..self
        }
    }

    pub fn reset(self) -> Drive
        ensures { result ≡ after_reset self }
    {
        Drive {
            setup: self.setup,
            holding: parts::no_holding(),
            place: Place {
                cylinder: 0,
                head: 0,
                sector: 0,
            },
            target: parts::NO_TARGET,
            transfer: parts::no_transfer(),
            pending0: Pending {
                octet1: parts::RESET_COMPLETE,
                octet2: 0,
            },
            pending1: Pending {
                octet1: parts::RESET_COMPLETE,
                octet2: 0,
            },
        }
    }

    // At least a plain hold.
    pub fn reserve(self) -> Drive
        ensures { result ≡ reserved self }
    {
        self.with_hold(at_least_plain(self.holding.hold))
    }

    pub fn priority_reserve(self) -> Drive
        ensures { result ≡ priority_reserved self }
    {
        self.with_hold(Hold::Strong)
    }

    pub fn release(self) -> Drive
        ensures { result ≡ unreserved self }
    {
        self.with_hold(Hold::None)
    }

    fn with_hold(self, hold: Hold) -> Drive
        ensures { result ≡ with_holding self (with_hold self.holding hold) }
    {
        Drive {
            holding: Holding {
                hold,
                ..self.holding
            },
            ..self
        }
    }

    // A takeover is told to the port that loses the drive.
    fn owner_noticed(self, port: u16) -> Drive
        ensures { result ≡ owner_noticed self port }
    {
        let owner = self.holding.owner;
        if self.holding.is_owned_by_other(port) {
            let p = chosen(owner == 0, self.pending0, self.pending1);
            return self.posted_on(owner, p.noticed());
        }
        self
    }
}

fn at_least_plain(hold: Hold) -> Hold
    ensures { result ≡ at_least_plain hold }
{
    match hold {
        Hold::None | Hold::Plain => Hold::Plain,
        Hold::Strong => Hold::Strong,
    }
}

fn chosen(first: bool, a: Pending, b: Pending) -> Pending
    ensures { result ≡ pick first a b }
{
    if first { a } else { b }
}
