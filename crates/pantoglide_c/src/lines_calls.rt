// A trace of settings behind the follower's octet, by the table and without it.
ghost use Rattle.lines.specs.Reading.{step_by_step};
ghost use Rattle.lines.specs.Turns.{read_plainly};
ghost use Rattle.pantoglide.specs.Lines.{LinesRead};

#[unsafe(no_mangle)]
pub extern "C" fn pg_lines(follower: &mut [u8], trace: &[u8], answers: &mut [u8]) -> u8
    ensures { LinesRead step_by_step follower.old trace.now answers.old result follower.new answers.new }
{
    pantoglide::pg_lines(follower, trace, answers)
}

#[unsafe(no_mangle)]
pub extern "C" fn pg_lines_plain(follower: &mut [u8], trace: &[u8], answers: &mut [u8]) -> u8
    ensures { LinesRead read_plainly follower.old trace.now answers.old result follower.new answers.new }
{
    pantoglide::pg_lines_plain(follower, trace, answers)
}
