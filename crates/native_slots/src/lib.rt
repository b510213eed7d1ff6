//! Natives: slots whose work is a closure that a caller hands in, beside what it may read and do.
#![tactic(auto)]

mod action;
mod answering;
pub mod built_in;
mod effects;
mod fault;
mod fitting;
mod head;
mod laws;
mod misfit;
mod native_slot;
mod natives;
mod plain_type;

pub use action::{Action, MOST_ACTIONS};
pub use answering::Answering;
pub use effects::{Effects, PlainProperty, PlainSignal};
pub use fault::NativeFault;
pub use head::NativeHead;
pub use laws::one_fitting;
pub use misfit::{Difference, Misfit, NativePlace};
pub use native_slot::{NativeSlot, Work};
pub use natives::Natives;
pub use plain_type::PlainType;
