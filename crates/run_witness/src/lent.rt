//! Natives that are lent.

use basic_types::{Name, Sig, Value};
use meta_model::Meta;
use native_slots::{Action, Answering, Misfit};
use std::alloc::AllocError;
use trace_tool::FittingNatives;

/// Natives that are lent to a machine, which they answer as they do: once its run has ended they can be lent to the next one.
#[derive(Drop)]
pub struct Lent<'n, N> {
    pub natives: &'n N,
}

impl<N: Answering> Answering for Lent<'_, N> {
    ghost takes = { λ lent class sig arguments reads.
        N.takes lent.natives.now class sig arguments reads };

    ghost gives = { λ lent class sig arguments reads actions.
        N.gives lent.natives.now class sig arguments reads actions };

    fn answer(
        &self,
        class: &Name,
        sig: &Sig,
        arguments: &[Value],
        reads: &[Value],
    ) -> Result<Vec<Action>, AllocError> {
        self.natives.answer(class, sig, arguments, reads)
    }
}

impl<N: FittingNatives> FittingNatives for Lent<'_, N> {
    ghost heads = { λ lent. N.heads lent.natives.now };

    fn fitting(&self, meta: &Meta) -> Result<(), Misfit> {
        self.natives.fitting(meta)
    }
}
