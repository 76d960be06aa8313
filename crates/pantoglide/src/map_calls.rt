// The maker's defect map: decoded and encoded, and on the last cylinder's sectors.
ghost use Rattle.drive.specs.Power.{setup_of};
ghost use Rattle.pantoglide.specs.Defects.{MapTold, MapMade, MapReadOff, MapPut};

use crate::told::told;
use parts::Setup;

// 0, the defects at the front of `defects`, how many they are and the storage track; or the first offence and where it lies.
pub fn pg_decode_map(
    cylinders: u16,
    heads: u16,
    sectors: u16,
    header: u16,
    field1: u16,
    field2: u16,
    address: u16,
    octets: &[u8],
    defects: &mut [u8],
    count: &mut usize,
    storage_cylinder: &mut u16,
    storage_head: &mut u16,
    offset: &mut usize,
) -> u8
    ensures { MapTold (setup_of cylinders heads sectors header field1 field2 address) octets.now defects.old count.old storage_cylinder.old storage_head.old offset.old result defects.new count.new storage_cylinder.new storage_head.new offset.new }
{
    let setup = Setup {
        cylinders,
        heads,
        sectors,
        header,
        field1,
        field2,
        address,
    };
    match defects::decode_map(setup, octets, defects) {
        Ok(map) => {
            *count = map.count;
            *storage_cylinder = map.storage_cylinder;
            *storage_head = map.storage_head;
            0
        }
        Err(offence) => {
            *offset = offence.offset;
            u8::from(offence.refusal)
        }
    }
}

// 0, the map at the front of `out` and its size; or the refusal and nothing changed.
pub fn pg_encode_map(
    cylinders: u16,
    heads: u16,
    sectors: u16,
    header: u16,
    field1: u16,
    field2: u16,
    address: u16,
    storage_cylinder: u16,
    storage_head: u16,
    defects: &[u8],
    out: &mut [u8],
    size: &mut usize,
) -> u8
    ensures { MapMade (setup_of cylinders heads sectors header field1 field2 address) storage_cylinder storage_head defects.now out.old size.old result out.new size.new }
{
    let setup = Setup {
        cylinders,
        heads,
        sectors,
        header,
        field1,
        field2,
        address,
    };
    match defects::encode_map(setup, storage_cylinder, storage_head, defects, out) {
        Ok(octets) => {
            *size = octets;
            0
        }
        Err(refusal) => u8::from(refusal),
    }
}

// As `pg_decode_map`, off the sector words; what stands behind the map is passed over.
pub fn pg_read_map(
    cylinders: u16,
    heads: u16,
    sectors: u16,
    header: u16,
    field1: u16,
    field2: u16,
    address: u16,
    sector_words: &[u16],
    defects: &mut [u8],
    count: &mut usize,
    storage_cylinder: &mut u16,
    storage_head: &mut u16,
    offset: &mut usize,
) -> u8
    ensures { MapReadOff (setup_of cylinders heads sectors header field1 field2 address) sector_words.now defects.old count.old storage_cylinder.old storage_head.old offset.old result defects.new count.new storage_cylinder.new storage_head.new offset.new }
{
    let setup = Setup {
        cylinders,
        heads,
        sectors,
        header,
        field1,
        field2,
        address,
    };
    match defects::read_map(setup, sector_words, defects) {
        Ok(map) => {
            *count = map.count;
            *storage_cylinder = map.storage_cylinder;
            *storage_head = map.storage_head;
            0
        }
        Err(offence) => {
            *offset = offence.offset;
            u8::from(offence.refusal)
        }
    }
}

// 0 and the map in field 1 of the last cylinder's sectors, all other words as they were; or the refusal and nothing changed.
pub fn pg_write_map(
    cylinders: u16,
    heads: u16,
    sectors: u16,
    header: u16,
    field1: u16,
    field2: u16,
    address: u16,
    storage_cylinder: u16,
    storage_head: u16,
    defects: &[u8],
    sector_words: &mut [u16],
) -> u8
    ensures { MapPut (setup_of cylinders heads sectors header field1 field2 address) storage_cylinder storage_head defects.now sector_words.old result sector_words.new }
{
    let setup = Setup {
        cylinders,
        heads,
        sectors,
        header,
        field1,
        field2,
        address,
    };
    told(defects::write_map(setup, storage_cylinder, storage_head, defects, sector_words))
}
