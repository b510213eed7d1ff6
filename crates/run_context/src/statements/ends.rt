//! Where connections lead that a body makes or removes.

ghost use Rattle.run_context.specs.code.Coded.{FindsBetween};

use crate::statements::paths::Scope;
use expressions::EvalFault;
use machine_state::Endpoints;
use meta_model::MetaEndpoints;

impl<'w> Scope<'w> {
    /// The ends whose objects two paths lead to, or `None` where one leads to null; `BadType` where one leads to neither.
    #[inline(always)]
    pub fn ends_at(&self, ends: &MetaEndpoints) -> Result<Option<Endpoints>, EvalFault>
        ensures { FindsBetween self.now ends.now result }
    {
        let Some(sender) = self.object_at(&ends.sender)? else {
            return Ok(None);
        };
        let Some(receiver) = self.object_at(&ends.receiver)? else {
            return Ok(None);
        };
        Ok(Some(Endpoints {
            sender,
            signal: ends.signal,
            receiver,
            method: ends.method,
        }))
    }
}
