//! Tests as files: command lines with their inputs, and what they have to answer, as cases in a file, or each in files of
//! its own.

mod answering;
mod case;
mod escapes;
mod example;
mod fault;
mod input;
mod running;
mod section;
mod sections;
mod telling;

pub use case::{Case, cases};
pub use example::tell_example;
pub use fault::CaseFault;
pub use section::{CasePart, Section, SectionMarks};
pub use sections::read_sections;
pub use telling::tell_file;
