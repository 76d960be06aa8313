// A defect both ways, and the places of a defect map.
ghost use Rattle.drive.specs.Power.{setup_of};
ghost use Rattle.pantoglide.specs.Defects.{DefectTold, DefectMade, PlaceTold};

use crate::told::told;
use defects::Defect;
use parts::Setup;

// 0 and the four numbers of the defect; or the refusal and nothing changed.
pub fn pg_decode_defect(
    octets: &[u8],
    cylinder: &mut u32,
    head: &mut u16,
    offset: &mut u32,
    length: &mut u16,
) -> u8
    ensures { DefectTold octets.now cylinder.old head.old offset.old length.old result cylinder.new head.new offset.new length.new }
{
    match defects::decode_defect(octets) {
        Ok(defect) => {
            *cylinder = defect.cylinder;
            *head = defect.head;
            *offset = defect.offset;
            *length = defect.length;
            0
        }
        Err(refusal) => u8::from(refusal),
    }
}

// 0 and the defect at the front of `octets`; or the refusal and nothing changed.
pub fn pg_encode_defect(cylinder: u32, head: u16, offset: u32, length: u16, octets: &mut [u8]) -> u8
    ensures { DefectMade cylinder head offset length octets.old result octets.new }
{
    let defect = Defect {
        cylinder,
        head,
        offset,
        length,
    };
    told(defects::encode_defect(defect, octets))
}

// 0 and the place of a data field of the map, counted from 0; or the refusal and nothing changed.
pub fn pg_map_place(
    cylinders: u16,
    heads: u16,
    sectors: u16,
    header: u16,
    field1: u16,
    field2: u16,
    address: u16,
    data_field: usize,
    cylinder: &mut u16,
    head: &mut u16,
    sector: &mut u16,
) -> u8
    ensures { PlaceTold (setup_of cylinders heads sectors header field1 field2 address) data_field cylinder.old head.old sector.old result cylinder.new head.new sector.new }
{
    let setup = Setup {
        cylinders,
        heads,
        sectors,
        header,
        field1,
        field2,
        address,
    };
    match defects::map_place(setup, data_field) {
        Ok(place) => {
            *cylinder = place.cylinder;
            *head = place.head;
            *sector = place.sector;
            0
        }
        Err(refusal) => u8::from(refusal),
    }
}
