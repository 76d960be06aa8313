// The rows of a kind, in the order of their tests.
ghost use Rattle.std.specs.Prelude.{◌≡◌};
ghost use Rattle.laws.specs.Rows.{first};
ghost use Rattle.refusals.specs.Refusal.{refusal_in};
ghost use Rattle.parts.specs.Tests.{inside_rows, select_rows};

use refusals::Refusal;

// Kinds 2 to 9: 8, then 2, then 7. Here and below the tests are handed in one by one, as the definitions of the rows take them.
pub fn inside_refusal(formed: bool, selected: bool, untimely: bool) -> Result<(), Refusal>
    ensures { refusal_in result ≡ first (inside_rows formed selected untimely) }
{
    if !formed {
        return Err(Refusal::Malformed);
    }
    if !selected {
        return Err(Refusal::NotSelected);
    }
    if untimely {
        return Err(Refusal::TransferOpenOrNot);
    }
    Ok(())
}

// Select: 8, then 3, 4, 5, 6.
pub fn select_refusal(
    formed: bool,
    selected: bool,
    misaddressed: bool,
    changes_mode: bool,
    busy: bool,
) -> Result<(), Refusal>
    ensures { refusal_in result ≡ first (select_rows formed selected misaddressed changes_mode busy) }
{
    if !formed {
        return Err(Refusal::Malformed);
    }
    if selected {
        return Err(Refusal::AlreadySelected);
    }
    if misaddressed {
        return Err(Refusal::NotOurAddress);
    }
    if changes_mode {
        return Err(Refusal::ModeCannotChange);
    }
    if busy {
        return Err(Refusal::Busy);
    }
    Ok(())
}
