// The kinds of events.
ghost use Rattle.std.specs.Prelude.{◌≡◌};
ghost use Rattle.parts.specs.Kind.{kind_of};

#[derive(Clone, Copy, Debug, PartialEq, Eq)]
pub enum Kind {
    Select,
    Deselect,
    Reset,
    Unknown,
    Use(Work),
}

// Kinds 3 to 9: what a selected port does.
#[derive(Clone, Copy, Debug, PartialEq, Eq)]
pub enum Work {
    DataControl,
    WordFromHost,
    TakeWord,
    End,
    Position,
    Target,
    ReadStatus,
}

// No `TryFrom`: `kind_of` gives every number a kind.
impl From<u8> for Kind {
    ghost from_gives = { λ number kind. kind ≡ kind_of number };

    fn from(number: u8) -> Kind {
        match number {
            1 => Kind::Select,
            2 => Kind::Deselect,
            3 => Kind::Use(Work::DataControl),
            4 => Kind::Use(Work::WordFromHost),
            5 => Kind::Use(Work::TakeWord),
            6 => Kind::Use(Work::End),
            7 => Kind::Use(Work::Position),
            8 => Kind::Use(Work::Target),
            9 => Kind::Use(Work::ReadStatus),
            10 => Kind::Reset,
            _ => Kind::Unknown,
        }
    }
}
