// A defect both ways, and the places of a defect map.
ghost use Rattle.drive.specs.Power.{setup_of};
ghost use Rattle.pantoglide.specs.Defects.{DefectTold, DefectMade, PlaceTold};

// 0 and the four numbers of the defect; or the refusal and nothing changed.
#[unsafe(no_mangle)]
pub extern "C" fn pg_decode_defect(
    octets: &[u8],
    cylinder: &mut u32,
    head: &mut u16,
    offset: &mut u32,
    length: &mut u16,
) -> u8
    ensures { DefectTold octets.now cylinder.old head.old offset.old length.old result cylinder.new head.new offset.new length.new }
{
    pantoglide::pg_decode_defect(octets, cylinder, head, offset, length)
}

// 0 and the defect at the front of `octets`; or the refusal and nothing changed.
#[unsafe(no_mangle)]
pub extern "C" fn pg_encode_defect(
    cylinder: u32,
    head: u16,
    offset: u32,
    length: u16,
    octets: &mut [u8],
) -> u8
    ensures { DefectMade cylinder head offset length octets.old result octets.new }
{
    pantoglide::pg_encode_defect(cylinder, head, offset, length, octets)
}

// 0 and the place of a data field of the map, counted from 0; or the refusal and nothing changed.
#[unsafe(no_mangle)]
pub extern "C" fn pg_map_place(
    cylinders: u16,
    heads: u16,
    sectors: u16,
    header: u16,
    field1: u16,
    field2: u16,
    address: u16,
    data_field: usize,
    cylinder: &mut u16,
    head: &mut u16,
    sector: &mut u16,
) -> u8
    ensures { PlaceTold (setup_of cylinders heads sectors header field1 field2 address) data_field cylinder.old head.old sector.old result cylinder.new head.new sector.new }
{
    pantoglide::pg_map_place(
        cylinders, heads, sectors, header, field1, field2, address, data_field, cylinder, head,
        sector,
    )
}
