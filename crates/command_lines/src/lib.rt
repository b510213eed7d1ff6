//! What goes in and out of commands: what the words of a command line say, what is read, and into which texts it is cut; and
//! what commands write, byte by byte: the lines of traces, classes and certificates, on their way to a writer.
#![tactic(auto)]

mod certificate_line;
mod connection_line;
mod cut;
mod fault;
mod input;
mod line;
mod meta_line;
mod node_line;
mod output;
mod pending;
mod usage;
mod watched;
mod words;

pub use cut::{one_text, three_texts, two_texts};
pub use fault::WriteFault;
pub use input::{InputFault, LARGEST_INPUT, read_input};
pub use output::Output;
pub use usage::UsageFault;
pub use watched::{Failing, Failures};
pub use words::{Command, CommandLine, Options};
