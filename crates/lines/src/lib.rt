// The lines of one port: who owns each, which moves between settings are listed, and a follower of them.
#![tactic(auto)]

mod follower;
mod line;
mod moves;
mod plain;
mod reading;
mod table;

pub use follower::{Answer, Followed, Follower};
pub use line::{
    BUSACK, BUSCTL, DESEL, IDLE, Line, MAINT, MASTEND, REQUEST, SELECT, SLAVACK, SLAVEND, Side,
    XFREND, XFRRDY, XFRRES, XFRST, owner, weight,
};
pub use moves::{Move, move_of};
pub use plain::{read_plainly, step_plainly};
pub use reading::follow;
