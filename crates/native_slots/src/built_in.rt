//! The program's one native: the class that declares it, its signature, its effects, and its answers.

mod native;

pub use native::{answer, class, effects, natives, twice};
