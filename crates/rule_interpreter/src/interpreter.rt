//! A run's context with its natives.

ghost use Rattle.std.specs.Prelude.{◌≡◌, ◌≤◌};
ghost use Rattle.texts.specs.Limits.{most_depth};

use meta_model::Meta;
use run_context::RunContext;
use std::alloc::Global;

/// What a run goes by, with the natives that it asks.
#[derive(Drop)]
pub struct Interpreter<N> {
    /// Where memory is asked for, the program, and how deep activations may nest.
    pub context: RunContext,
    /// The program's natives.
    pub natives: N,
}

impl<N> Interpreter<N> {
    /// A program with its natives; at most `depth` activations nest, up to 256.
    pub fn new(alloc: Global, meta: Meta, natives: N, depth: usize) -> Interpreter<N>
        requires { depth ≤ most_depth }
        ensures meta { result.context.meta ≡ meta }
        ensures natives { result.natives ≡ natives }
        ensures depth { result.context.depth ≡ depth }
    {
        Interpreter {
            context: RunContext::new(alloc, meta, depth),
            natives,
        }
    }
}
