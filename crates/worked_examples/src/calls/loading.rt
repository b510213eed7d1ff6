use anyhow::Result;
use class_lang::read_program;
use meta_model::Meta;
use meta_objects::FromProgram;
use std::alloc::Global;

/// A program, loaded.
pub fn loaded(alloc: Global, text: &str) -> Result<Meta> {
    let program = read_program(alloc, text.as_bytes())?;
    let meta = Meta::build(alloc, &program)?;
    Ok(meta)
}
