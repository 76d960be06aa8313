// The line follower as one octet.
ghost use Rattle.std.specs.Prelude.{◌≡◌};
ghost use Rattle.pantoglide.specs.Line.{setting_in, follower_in, follower_octet, LineFollowed};

use lines::Follower;
use refusals::Refusal;

// A setting that no trace reaches. A number and no Option: bit 7 of C's octet stands for no follower.
const NO_SETTING: u8 = 32;

const HISTORY: u8 = 32;

const LOST: u8 = 64;

pub fn pg_line(follower: &mut [u8], setting: u8) -> u8
    ensures { LineFollowed follower.old setting result follower.new }
{
    if follower.is_empty() {
        return u8::from(Refusal::SliceTooShort);
    }
    let followed = lines::step_plainly(follower_in(follower[0]), setting);
    if followed.answer.is_ok() {
        follower[0] = follower_octet(followed.follower);
    }
    followed.octet()
}

// The follower and its octet: functions, since `From` would have to stand in `lines`, which knows nothing of the follower's octet.
#[tactic(auto, unfolding(crate::specs::Line::follower_in))]
pub(crate) fn follower_in(octet: u8) -> Follower
    ensures { result ≡ follower_in octet }
{
    Follower {
        setting: setting_in(octet),
        history: octet / HISTORY % 2 == 1,
        lost: octet / LOST % 2 == 1,
    }
}

#[tactic(auto, unfolding(crate::specs::Line::setting_in, laws::specs::Pick::pick))]
fn setting_in(octet: u8) -> u8
    ensures { result ≡ setting_in octet }
{
    if octet / 128 % 2 == 1 {
        return NO_SETTING;
    }
    octet % 32
}

#[tactic(auto, unfolding(crate::specs::Line::follower_octet, laws::specs::Pick::pick))]
pub(crate) fn follower_octet(follower: Follower) -> u8
    ensures { result ≡ follower_octet follower }
{
    follower.setting % 32 + u8::from(follower.history) * HISTORY + u8::from(follower.lost) * LOST
}
