// The follower of one port's lines, by value: a step for each setting that is seen.
ghost use Rattle.std.specs.Prelude.{◌<◌, ◌≡◌};
ghost use Rattle.lines.specs.Follower.{told, is_reached, lacks_history, refused, remembers, undefined_at, while_lost, moved, Started, Stepped, ReachedSaid};
ghost use Rattle.lines.specs.Reading.{octet_said, OctetSaid};

use crate::moves::Move;
use crate::{line, table};
use refusals::Refusal;

// Flags beside the setting: `ReachedSaid` speaks of every combination, as `pg_line` takes any octet for a follower.
#[derive(Clone, Copy, Debug, PartialEq, Eq)]
pub struct Follower {
    pub setting: u8,
    // At SELECT, MASTEND and SLAVACK: the history that a later move needs is there.
    pub history: bool,
    pub lost: bool,
}

#[derive(Clone, Copy, Debug, PartialEq, Eq)]
pub enum Answer {
    Same = 16,
    Controllers,
    Drives,
    Undefined,
    Lost,
    Idle,
}

#[derive(Clone, Copy, Debug, PartialEq, Eq)]
pub struct Followed {
    pub answer: Result<Answer, Refusal>,
    pub follower: Follower,
}

// From 16 on: below are the numbers of the refusals.
impl From<Answer> for u8 {
    ghost from_gives = { λ answer n. n ≡ octet_said answer };

    fn from(answer: Answer) -> u8 {
        answer as u8
    }
}

impl Followed {
    // The answer as an octet, or the number of the refusal.
    #[tactic(auto, unfolding(crate::specs::Reading::octet_of))]
    #[inline(always)]
    pub fn octet(self) -> u8
        ensures { OctetSaid self.answer result }
    {
        match self.answer {
            Ok(answer) => u8::from(answer),
            Err(refusal) => u8::from(refusal),
        }
    }
}

impl Follower {
    // The follower that has seen nothing yet: IDLE.
    pub fn start() -> Follower
        ensures { Started result }
    {
        Follower {
            setting: line::IDLE,
            history: false,
            lost: false,
        }
    }

    // Sees a setting. 11 for a state that no trace reaches, 8 for a setting over 31: then nothing changes.
    pub fn step(self, setting: u8) -> Followed
        ensures { Stepped self setting result }
    {
        self.step_known(self.is_reached(), setting)
    }

    // The same, where it is known whether a trace leads here: no step leads into those states or out of them, so that a trace asks once.
    #[inline(always)]
    pub(crate) fn step_known(self, reached: bool, setting: u8) -> Followed
        requires { reached ≡ is_reached self }
        ensures { Stepped self setting result }
    {
        if !reached {
            return self.refused(Refusal::UnsoundState);
        }
        if line::LAST_SETTING < setting {
            return self.refused(Refusal::Malformed);
        }
        if self.lost {
            return while_lost(setting);
        }
        self.moved(setting)
    }

    // Does a trace from the start lead to this state?
    #[tactic(auto, using(std::proofs::lemmas::Bool::Decides::nat_tests), unfolding(crate::specs::Follower::is_reached, laws::specs::Pick::pick))]
    #[inline(always)]
    pub fn is_reached(self) -> bool
        ensures { ReachedSaid self result }
    {
        if self.lost {
            return (self.setting == line::IDLE) & !self.history;
        }
        if self.history {
            return matches!(self.setting, line::SELECT | line::SLAVACK | line::MASTEND);
        }
        // Asked at every setting: as one `matches!` it costs a third of the instructions more.
        let s = self.setting;
        (s == line::IDLE)
            | (s == line::MAINT)
            | (s == line::REQUEST)
            | (s == line::DESEL)
            | (s == line::SELECT)
            | (s == line::SLAVEND)
            | (s == line::SLAVACK)
            | (s == line::BUSCTL)
            | (s == line::MASTEND)
            | (s == line::BUSACK)
            | (s == line::XFRRDY)
            | (s == line::XFREND)
            | (s == line::XFRST)
            | (s == line::XFRRES)
    }

    #[tactic(auto, unfolding(crate::specs::Follower::moved_by, laws::specs::Pick::pick))]
    #[inline(always)]
    fn moved(self, setting: u8) -> Followed
        requires { (self.setting < 32) × (setting < 32) }
        ensures { result ≡ moved self setting }
    {
        match table::entry(self.setting, setting) {
            Move::Same => self.told(Answer::Same),
            Move::Controllers => {
                if self.lacks_history(setting) {
                    undefined_at(setting)
                } else {
                    self.at(setting).told(Answer::Controllers)
                }
            }
            Move::Drives => self.at(setting).told(Answer::Drives),
            Move::Undefined => undefined_at(setting),
        }
    }

    #[tactic(auto, unfolding(crate::specs::Follower::lacks_history))]
    #[inline(always)]
    fn lacks_history(self, setting: u8) -> bool
        ensures { result ≡ lacks_history self setting }
    {
        if self.history {
            return false;
        }
        match self.setting {
            line::SELECT => setting == line::IDLE,
            line::SLAVACK => setting == line::XFRRDY,
            _ => false,
        }
    }

    #[tactic(auto, unfolding(crate::specs::Follower::remembers))]
    #[inline(always)]
    pub(crate) fn at(self, setting: u8) -> Follower
        ensures { result ≡ remembers self setting }
    {
        let history = match setting {
            line::SELECT => self.setting == line::IDLE,
            line::MASTEND => self.setting == line::BUSACK,
            line::SLAVACK => (self.setting == line::MASTEND) & self.history,
            _ => false,
        };
        Follower {
            setting,
            history,
            lost: false,
        }
    }

    #[inline(always)]
    pub(crate) fn told(self, answer: Answer) -> Followed
        ensures { result ≡ told answer self }
    {
        Followed {
            answer: Ok(answer),
            follower: self,
        }
    }

    #[inline(always)]
    pub(crate) fn refused(self, refusal: Refusal) -> Followed
        ensures { result ≡ refused refusal self }
    {
        Followed {
            answer: Err(refusal),
            follower: self,
        }
    }
}

// IDLE where the setting is 0, else lost.
#[tactic(auto, unfolding(crate::specs::Follower::undefined_at, laws::specs::Pick::pick))]
#[inline(always)]
pub(crate) fn undefined_at(setting: u8) -> Followed
    ensures { result ≡ undefined_at setting }
{
    let follower = Follower {
        setting: line::IDLE,
        history: false,
        lost: setting != line::IDLE,
    };
    follower.told(Answer::Undefined)
}

#[tactic(auto, unfolding(crate::specs::Follower::while_lost, laws::specs::Pick::pick))]
#[inline(always)]
pub(crate) fn while_lost(setting: u8) -> Followed
    ensures { result ≡ while_lost setting }
{
    if setting == line::IDLE {
        return Follower::start().told(Answer::Idle);
    }
    let lost = Follower {
        setting: line::IDLE,
        history: false,
        lost: true,
    };
    lost.told(Answer::Lost)
}
