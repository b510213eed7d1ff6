//! Runs the case files whose names are the program's words, and the examples among them, and says of each whether it is as
//! written. For the word `calls` it writes what only direct calls show.
#![tactic(auto)]

mod files;

use crate::files::{tell_example, tell_file};
use anyhow::Result;
use std::env;
use worked_examples::tell_calls;

fn main(rt: HostRuntime) -> Result<()> {
    let names = env::args(&rt)?.skip(1).collect::<Vec<String>>(rt.alloc())?;
    for name in names.as_slice() {
        let name = name.as_str();
        if name == "calls" {
            tell_calls(&rt)?;
        } else if name.starts_with("examples/") {
            tell_example(&rt, name)?;
        } else {
            tell_file(&rt, name)?;
        }
    }
    Ok(())
}
