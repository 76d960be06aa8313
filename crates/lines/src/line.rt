// The five control lines: the part of each in a setting, and its owner.
ghost use Rattle.std.specs.Prelude.{◌≡◌};
ghost use Rattle.lines.specs.Line.{named_settings, WeightSaid, OwnerSaid};

// The settings that have a name. Numbers, as `Stepped` speaks of every octet as a setting.
pub const IDLE: u8 = 0;

pub const MAINT: u8 = 1;

pub const REQUEST: u8 = 4;

pub const DESEL: u8 = 8;

pub const SELECT: u8 = 16;

pub const SLAVEND: u8 = 20;

pub const SLAVACK: u8 = 24;

pub const BUSCTL: u8 = 25;

pub const MASTEND: u8 = 26;

pub const BUSACK: u8 = 27;

pub const XFRRDY: u8 = 28;

pub const XFREND: u8 = 29;

pub const XFRST: u8 = 30;

pub const XFRRES: u8 = 31;

// Nothing calls it: its promise holds the names above to document 01's numbers.
fn named_settings() -> [u8; 14]
    ensures { result ≡ named_settings }
{
    [
        IDLE, MAINT, REQUEST, DESEL, SELECT, SLAVEND, SLAVACK, BUSCTL, MASTEND, BUSACK, XFRRDY,
        XFRST, XFRRES, XFREND,
    ]
}

// The largest setting: all five lines up.
pub(crate) const LAST_SETTING: u8 = 31;

#[derive(Clone, Copy, Debug, PartialEq, Eq)]
pub enum Side {
    Controller,
    Drive,
}

#[derive(Clone, Copy, Debug, PartialEq, Eq)]
pub enum Line {
    SelectOut,
    SlaveIn,
    MasterOut,
    SyncIn,
    SyncOut,
}

// What the line adds to a setting while it is up. Neither this nor `owner` is a `From`: the line has both, and is neither.
pub fn weight(line: Line) -> u8
    ensures { WeightSaid line result }
{
    match line {
        Line::SelectOut => 16,
        Line::SlaveIn => 8,
        Line::MasterOut => 4,
        Line::SyncIn => 2,
        Line::SyncOut => 1,
    }
}

// Whose line it is.
pub fn owner(line: Line) -> Side
    ensures { OwnerSaid line result }
{
    match line {
        Line::SelectOut => Side::Controller,
        Line::SlaveIn => Side::Drive,
        Line::MasterOut => Side::Controller,
        Line::SyncIn => Side::Drive,
        Line::SyncOut => Side::Controller,
    }
}
