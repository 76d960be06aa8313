// The drive status octet (004, 8.3.9).
ghost use Rattle.std.specs.Prelude.{◌≡◌};
ghost use Rattle.refusals.specs.Refusal.{on_paper};
ghost use Rattle.laws.specs.Rows.{refused_or};
ghost use Rattle.status.specs.DriveStatus.{octet_of, octet_rows, status_of, drive_status_octets, DecodedDriveStatus};
ghost use Rattle.status.specs.Encoded.{EncodedAs};

use refusals::Refusal;

#[derive(Clone, Copy, Debug, PartialEq, Eq)]
pub enum DriveStatus {
    Normal,
    Busy,
    HeaderMiscompare,
    OperationException,
    UnsolicitedException,
}

const NORMAL: u8 = 0x00;

const BUSY: u8 = 0x01;

const HEADER_MISCOMPARE: u8 = 0x07;

const OPERATION_EXCEPTION: u8 = 0x08;

const UNSOLICITED_EXCEPTION: u8 = 0x0C;

impl From<DriveStatus> for u8 {
    ghost from_gives = { λ status octet. octet ≡ octet_of status };

    fn from(status: DriveStatus) -> u8 {
        match status {
            DriveStatus::Normal => NORMAL,
            DriveStatus::Busy => BUSY,
            DriveStatus::HeaderMiscompare => HEADER_MISCOMPARE,
            DriveStatus::OperationException => OPERATION_EXCEPTION,
            DriveStatus::UnsolicitedException => UNSOLICITED_EXCEPTION,
        }
    }
}

impl TryFrom<u8> for DriveStatus {
    type Error = Refusal;

    ghost try_from_gives = { λ octet r. on_paper r ≡ refused_or (octet_rows octet) (status_of octet) };

    #[tactic(auto, unfolding(crate::specs::DriveStatus::is_drive_status, crate::specs::DriveStatus::status_of, laws::specs::Pick::pick))]
    fn try_from(octet: u8) -> Result<DriveStatus, Refusal> {
        match octet {
            NORMAL => Ok(DriveStatus::Normal),
            BUSY => Ok(DriveStatus::Busy),
            HEADER_MISCOMPARE => Ok(DriveStatus::HeaderMiscompare),
            OPERATION_EXCEPTION => Ok(DriveStatus::OperationException),
            UNSOLICITED_EXCEPTION => Ok(DriveStatus::UnsolicitedException),
            _ => Err(Refusal::Malformed),
        }
    }
}

// The status that the first octet says. 10 where there is no octet, 8 for an octet that no status has.
#[tactic(auto, using(crate::proofs::Decoding::drive_status_decoded), unfolding(laws::specs::Pick::pick))]
pub fn decode_drive_status(octets: &[u8]) -> Result<DriveStatus, Refusal>
    ensures { DecodedDriveStatus octets.now result }
{
    let [octet, ..] = *octets else {
        return Err(Refusal::SliceTooShort);
    };
    DriveStatus::try_from(octet)
}

// The status as the first octet, the others as they were. 10 where there is no octet. Every status is what a decoding
// yields, so there is no 8.
#[tactic(auto, using(laws::proofs::Lists::stored), unfolding(laws::specs::Pick::pick))]
pub fn encode_drive_status(status: DriveStatus, octets: &mut [u8]) -> Result<(), Refusal>
    ensures { EncodedAs (drive_status_octets status) octets.old octets.new result }
{
    let [octet, ..] = octets else {
        return Err(Refusal::SliceTooShort);
    };
    *octet = u8::from(status);
    Ok(())
}
