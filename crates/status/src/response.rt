// The status response (001, figure 3-3): 8 octets, of which the base uses bits of the first three.
ghost use Rattle.std.specs.Prelude.{◌≤◌, not, ◌≡◌, eqb, length};
ghost use Rattle.std.specs.Int.Bits.{bit_and};
ghost use Rattle.laws.specs.Pick.{pick};
ghost use Rattle.status.specs.Encoded.{EncodedAs};
ghost use Rattle.status.specs.Response.{is_foreign, exception_octet, unsolicited_octet, bus_control_octet, response_of, response_octets, DecodedResponse};

use refusals::Refusal;

#[derive(Clone, Copy, Debug, PartialEq, Eq)]
pub struct Response {
    pub reset_complete: bool,
    pub alternate_port_priority_select: bool,
    pub invalid_bus_control: bool,
    pub invalid_parameter: bool,
    pub unsupported_bus_control: bool,
    pub bus_control_context: bool,
}

const RESPONSE_LENGTH: usize = 8;

// Octet 0.
const UNSOLICITED_EXCEPTION: u8 = 0x40;

const BUS_CONTROL_EXCEPTION: u8 = 0x20;

// Octet 1.
const RESET_COMPLETE: u8 = 0x80;

const ALTERNATE_PORT_PRIORITY_SELECT: u8 = 0x40;

const UNSOLICITED_BITS: u8 = 0xC0;

// Octet 2.
const INVALID_BUS_CONTROL: u8 = 0x80;

const INVALID_PARAMETER: u8 = 0x40;

const UNSUPPORTED_BUS_CONTROL: u8 = 0x20;

const BUS_CONTROL_CONTEXT: u8 = 0x10;

const BUS_CONTROL_BITS: u8 = 0xF0;

// The response in the first 8 octets. 10 where there are fewer, 8 for octets that the base never sends.
#[tactic(auto, using(crate::proofs::Decoding::response_decoded), unfolding(laws::specs::Pick::pick))]
pub fn decode_response(octets: &[u8]) -> Result<Response, Refusal>
    ensures { DecodedResponse octets.now result }
{
    if octets.len() < RESPONSE_LENGTH {
        return Err(Refusal::SliceTooShort);
    }
    if is_foreign(octets) {
        return Err(Refusal::Malformed);
    }
    Ok(response_of(octets[1], octets[2]))
}

// The response as the first 8 octets, the others as they were. 10 where there are fewer. Every response is what a decoding
// yields, so there is no 8.
#[tactic(auto, unfolding(laws::specs::Pick::pick))]
pub fn encode_response(response: Response, octets: &mut [u8]) -> Result<(), Refusal>
    ensures { EncodedAs (response_octets response) octets.old octets.new result }
{
    if octets.len() < RESPONSE_LENGTH {
        return Err(Refusal::SliceTooShort);
    }
    octets[..RESPONSE_LENGTH].copy_from_slice(&response_octets(response));
    Ok(())
}

fn response_octets(response: Response) -> [u8; RESPONSE_LENGTH]
    ensures { result ≡ response_octets response }
{
    let unsolicited = unsolicited_octet(response);
    let bus_control = bus_control_octet(response);
    let exception = exception_octet(unsolicited, bus_control);
    [exception, unsolicited, bus_control, 0, 0, 0, 0, 0]
}

// A bit that the base never sets, or an octet 0 that does not fit octets 1 and 2.
fn is_foreign(octets: &[u8]) -> bool
    requires { 8 ≤ length octets.now }
    ensures { result ≡ is_foreign octets.now }
{
    has_other(octets[1], UNSOLICITED_BITS)
        | has_other(octets[2], BUS_CONTROL_BITS)
        | octets[3..RESPONSE_LENGTH].iter().any(|&octet| octet != 0)
        | (octets[0] != exception_octet(octets[1], octets[2]))
}

fn response_of(unsolicited: u8, bus_control: u8) -> Response
    ensures { result ≡ response_of unsolicited bus_control }
{
    Response {
        reset_complete: has(unsolicited, RESET_COMPLETE),
        alternate_port_priority_select: has(unsolicited, ALTERNATE_PORT_PRIORITY_SELECT),
        invalid_bus_control: has(bus_control, INVALID_BUS_CONTROL),
        invalid_parameter: has(bus_control, INVALID_PARAMETER),
        unsupported_bus_control: has(bus_control, UNSUPPORTED_BUS_CONTROL),
        bus_control_context: has(bus_control, BUS_CONTROL_CONTEXT),
    }
}

#[tactic(auto, unfolding(crate::specs::Response::exception_octet))]
fn exception_octet(unsolicited: u8, bus_control: u8) -> u8
    ensures { result ≡ exception_octet unsolicited bus_control }
{
    bit_when(unsolicited != 0, UNSOLICITED_EXCEPTION)
        + bit_when(bus_control != 0, BUS_CONTROL_EXCEPTION)
}

#[tactic(auto, unfolding(crate::specs::Response::unsolicited_octet))]
fn unsolicited_octet(response: Response) -> u8
    ensures { result ≡ unsolicited_octet response }
{
    bit_when(response.reset_complete, RESET_COMPLETE)
        + bit_when(
            response.alternate_port_priority_select,
            ALTERNATE_PORT_PRIORITY_SELECT,
        )
}

#[tactic(auto, unfolding(crate::specs::Response::bus_control_octet))]
fn bus_control_octet(response: Response) -> u8
    ensures { result ≡ bus_control_octet response }
{
    bit_when(response.invalid_bus_control, INVALID_BUS_CONTROL)
        + bit_when(response.invalid_parameter, INVALID_PARAMETER)
        + bit_when(response.unsupported_bus_control, UNSUPPORTED_BUS_CONTROL)
        + bit_when(response.bus_control_context, BUS_CONTROL_CONTEXT)
}

fn has(octet: u8, bit: u8) -> bool
    ensures { result ≡ not (eqb (bit_and octet bit) 0) }
{
    octet & bit != 0
}

fn has_other(octet: u8, bits: u8) -> bool
    ensures { result ≡ not (eqb octet (bit_and octet bits)) }
{
    octet != octet & bits
}

#[tactic(auto, unfolding(laws::specs::Pick::pick))]
fn bit_when(on: bool, bit: u8) -> u8
    ensures { (result ≡ pick on bit 0) × (result ≤ bit) }
{
    if on { bit } else { 0 }
}
