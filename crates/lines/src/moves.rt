// What a pair of settings is.
ghost use Rattle.std.specs.Prelude.{◌≡◌};
ghost use Rattle.lines.specs.Moves.{said_by, MoveSaid};

use crate::{line, table};
use refusals::Refusal;

#[derive(Clone, Copy, Debug, PartialEq, Eq)]
pub enum Move {
    Same,
    Controllers,
    Drives,
    Undefined,
}

// What the move from one setting to another is. A setting over 31 is refused (8).
#[tactic(auto, unfolding(laws::specs::Pick::pick))]
pub fn move_of(old: u8, new: u8) -> Result<Move, Refusal>
    ensures { MoveSaid old new result }
{
    if (line::LAST_SETTING < old) | (line::LAST_SETTING < new) {
        return Err(Refusal::Malformed);
    }
    Ok(table::entry(old, new))
}

// What an entry of the table says. A function and no `From`: it is asked for what the table has, and for nothing else.
#[tactic(auto, unfolding(crate::specs::Moves::said_by, laws::specs::Pick::pick))]
pub(crate) fn said_by(entry: u8) -> Move
    ensures { result ≡ said_by entry }
{
    match entry {
        0 => Move::Same,
        1 => Move::Controllers,
        2 => Move::Drives,
        _ => Move::Undefined,
    }
}
