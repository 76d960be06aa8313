// Who holds the drive.
ghost use Rattle.std.specs.Prelude.{◌≡◌};
ghost use Rattle.parts.specs.Holding.{priority_hold, priority_select, hold_set, holds_against, is_owned_by_other, is_busy, Granted, NotHeld, Released};

#[derive(Clone, Copy, Debug, PartialEq, Eq)]
pub enum Hold {
    None,
    Plain,
    Strong,
}

// Ports are 0 and 1. A number and no Option: row 11 judges any word that is handed in for a port.
pub const NOBODY: u16 = 2;

#[derive(Clone, Copy, Debug, PartialEq, Eq)]
pub struct Holding {
    pub selected: u16,
    pub owner: u16,
    pub hold: Hold,
}

fn priority_hold(octet: u8) -> bool
    ensures { result ≡ priority_hold octet }
{
    octet / 2 % 2 == 1
}

fn priority_select(octet: u8) -> bool
    ensures { result ≡ priority_select octet }
{
    octet / 1 % 2 == 1
}

// The hold that a granted selection sets.
fn hold_set(octet: u8) -> Hold
    ensures { result ≡ hold_set octet }
{
    if priority_hold(octet) {
        if priority_select(octet) {
            return Hold::Strong;
        }
        return Hold::Plain;
    }
    Hold::None
}

// Does the owner's hold stand against the other port's selection?
fn holds_against(hold: Hold, octet: u8) -> bool
    ensures { result ≡ holds_against hold octet }
{
    match hold {
        Hold::Strong => true,
        Hold::Plain => !(priority_hold(octet) & priority_select(octet)),
        Hold::None => !priority_select(octet),
    }
}

pub fn granted_to(port: u16, octet: u8) -> Holding
    ensures { Granted port octet result }
{
    let hold = hold_set(octet);
    Holding {
        selected: port,
        owner: port,
        hold,
    }
}

pub fn no_holding() -> Holding
    ensures { NotHeld result }
{
    Holding {
        selected: NOBODY,
        owner: NOBODY,
        hold: Hold::None,
    }
}

impl Holding {
    pub fn is_owned_by_other(self, port: u16) -> bool
        ensures { result ≡ is_owned_by_other self port }
    {
        (self.owner != NOBODY) & (self.owner != port)
    }

    pub fn is_busy(self, port: u16, octet: u8) -> bool
        ensures { result ≡ is_busy self port octet }
    {
        let hold = self.hold;
        self.is_owned_by_other(port) & holds_against(hold, octet)
    }

    pub fn released(self) -> Holding
        ensures { Released self result }
    {
        match self.hold {
            Hold::None => no_holding(),
            Hold::Plain | Hold::Strong => Holding {
                selected: NOBODY,
                ..self
            },
        }
    }
}
