// The line follower as one octet.
ghost use Rattle.pantoglide.specs.Line.{LineFollowed};

#[unsafe(no_mangle)]
pub extern "C" fn pg_line(follower: &mut [u8], setting: u8) -> u8
    ensures { LineFollowed follower.old setting result follower.new }
{
    pantoglide::pg_line(follower, setting)
}
