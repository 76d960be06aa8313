// The parts of the drive's state, the rules on each of them, and the tests of the refusals.
#![tactic(auto)]

mod command;
mod control;
mod event;
mod holding;
mod kind;
mod pending;
mod refusal;
mod setup;
mod transfer;

pub use command::{Function, function_of, parameter_words};
pub use control::{
    Control, control_of, header_passes, is_at_target, is_data, is_read, is_write, moves_header,
    names_field1, names_field2, part_of, verifies_header,
};
pub use event::{Event, changes_mode, is_misaddressed};
pub use holding::{Hold, Holding, NOBODY, granted_to, no_holding};
pub use kind::{Kind, Work};
pub use pending::{Fault, Pending, RESET_COMPLETE};
pub use refusal::{inside_refusal, select_refusal};
pub use setup::{NO_TARGET, Place, Setup, next_of};
pub use transfer::{Parameters, Transfer, no_transfer};
