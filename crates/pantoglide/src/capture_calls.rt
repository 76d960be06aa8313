// Captures: where the records of one are, and one put together.
ghost use Rattle.pantoglide.specs.Capture.{CaptureFound, CaptureMade};

// 0, where the first record starts and how many there are; or the refusal and nothing changed.
pub fn pg_capture(octets: &[u8], first_record: &mut usize, record_count: &mut usize) -> u8
    ensures { CaptureFound octets.now first_record.old record_count.old result first_record.new record_count.new }
{
    match capture::decode_capture(octets) {
        Ok(capture) => {
            *first_record = capture.first;
            *record_count = capture.count;
            0
        }
        Err(refusal) => u8::from(refusal),
    }
}

// 0, the capture at the front of `out` and its size; or the refusal and nothing changed.
pub fn pg_make_capture(notes: &[u8], records: &[u8], out: &mut [u8], size: &mut usize) -> u8
    ensures { CaptureMade notes.now records.now out.old size.old result out.new size.new }
{
    match capture::encode_capture(notes, records, out) {
        Ok(octets) => {
            *size = octets;
            0
        }
        Err(refusal) => u8::from(refusal),
    }
}
