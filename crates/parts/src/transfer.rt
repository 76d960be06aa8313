// The open transfer: its control, the words moved, and what a command has sent so far.
ghost use Rattle.std.specs.Prelude.{◌≡◌};
ghost use Rattle.parts.specs.Tests.{no_transfer};

// The words of a command before its last one, 0 wherever they stand for nothing.
#[derive(Clone, Copy, Debug, PartialEq, Eq)]
pub struct Parameters {
    pub word0: u16,
    pub word1: u16,
    pub word2: u16,
}

// Control 0 with no words moved is none. A number and no Option: row 11 judges any word that is handed in for a control.
#[derive(Clone, Copy, Debug, PartialEq, Eq)]
pub struct Transfer {
    pub control: u16,
    pub moved: u16,
    pub parameters: Parameters,
}

pub fn no_transfer() -> Transfer
    ensures { result ≡ no_transfer }
{
    Transfer {
        control: 0,
        moved: 0,
        parameters: Parameters {
            word0: 0,
            word1: 0,
            word2: 0,
        },
    }
}
