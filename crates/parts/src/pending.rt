// What is pending on a port: octets 1 and 2 of its status response.
ghost use Rattle.std.specs.Prelude.{◌≡◌};
ghost use Rattle.parts.specs.Pending.{OneBit, with_bit, bit_of, noticed, faulted, octet0};

#[derive(Clone, Copy, Debug, PartialEq, Eq)]
pub struct Pending {
    pub octet1: u8,
    pub octet2: u8,
}

// What is wrong with a bad request: each has its bit of octet 2.
#[derive(Clone, Copy, Debug, PartialEq, Eq)]
pub enum Fault {
    InvalidBusControl,
    InvalidParameter,
    UnsupportedBusControl,
    BusControlContext,
}

// Octet 1.
pub const RESET_COMPLETE: u8 = 0x80;

const ALTERNATE_PORT_PRIORITY_SELECT: u8 = 0x40;
// Octet 2.
const INVALID_BUS_CONTROL: u8 = 0x80;

const INVALID_PARAMETER: u8 = 0x40;

const UNSUPPORTED_BUS_CONTROL: u8 = 0x20;

const BUS_CONTROL_CONTEXT: u8 = 0x10;
// Octet 0.
const UNSOLICITED_EXCEPTION: u8 = 0x40;

const BUS_CONTROL_EXCEPTION: u8 = 0x20;

impl Pending {
    // The port lost the drive to the other one.
    pub fn noticed(self) -> Pending
        ensures { result ≡ noticed self }
    {
        Pending {
            octet1: with_bit(self.octet1, ALTERNATE_PORT_PRIORITY_SELECT),
            octet2: self.octet2,
        }
    }

    pub fn faulted(self, fault: Fault) -> Pending
        ensures { result ≡ faulted self (bit_of fault) }
    {
        Pending {
            octet1: self.octet1,
            octet2: with_bit(self.octet2, u8::from(fault)),
        }
    }

    pub fn octet0(self) -> u8
        ensures { result ≡ octet0 self }
    {
        if self.octet1 == 0 {
            if self.octet2 == 0 {
                return 0;
            }
            return BUS_CONTROL_EXCEPTION;
        }
        if self.octet2 == 0 {
            return UNSOLICITED_EXCEPTION;
        }
        UNSOLICITED_EXCEPTION + BUS_CONTROL_EXCEPTION
    }
}

impl From<Fault> for u8 {
    ghost from_gives = { λ fault bit. bit ≡ bit_of fault };

    fn from(fault: Fault) -> u8 {
        match fault {
            Fault::InvalidBusControl => INVALID_BUS_CONTROL,
            Fault::InvalidParameter => INVALID_PARAMETER,
            Fault::UnsupportedBusControl => UNSUPPORTED_BUS_CONTROL,
            Fault::BusControlContext => BUS_CONTROL_CONTEXT,
        }
    }
}

fn with_bit(octet: u8, bit: u8) -> u8
    requires { OneBit bit }
    ensures { result ≡ with_bit octet bit }
{
    octet | bit
}
