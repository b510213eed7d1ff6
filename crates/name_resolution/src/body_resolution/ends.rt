//! The ends of connections, as bodies name them.

ghost use Rattle.name_resolution.specs.code.Bodies.{AreEnds};
ghost use Rattle.name_resolution.specs.code.Resolving.{scope, Resolves};

use crate::body_resolution::path::ResolvedTarget;
use crate::body_resolution::scope::Scope;
use crate::missing::no_method;
use class_outlines::{End, PartFault, names_of_sig};
use meta_model::{MetaEndpoints, OBJECT_NAME_CHANGED};
use syntax_trees::{Endpoints, Path};

impl<'a> Scope<'a> {
    /// The ends; `NoMember` where a name in them isn't there, a path isn't declared to lead to objects, the first
    /// signature isn't that of a signal, or the second is that of a signal which the runtime emits.
    pub fn resolve_ends(
        &self,
        ends: &Endpoints<Path>,
        met: &mut usize,
    ) -> Result<MetaEndpoints, PartFault>
        ensures { Resolves (AreEnds (scope self.now) ends.now) result }
    {
        let ResolvedTarget {
            path: sender,
            number,
            class: from,
        } = self.resolve_object(&ends.sender, met)?;
        let Some(signal) = from.place_of_signal(&ends.signal) else {
            return Err(no_method(*met, number, from, End::Sender, &ends.signal));
        };
        *met = met.saturating_add(names_of_sig(&ends.signal));
        let ResolvedTarget {
            path: receiver,
            number: second,
            class: to,
        } = self.resolve_object(&ends.receiver, met)?;
        let Some(method) = to.place_of_signed(&ends.method) else {
            return Err(no_method(*met, second, to, End::Receiver, &ends.method));
        };
        if method <= OBJECT_NAME_CHANGED {
            return Err(no_method(*met, second, to, End::Receiver, &ends.method));
        }
        *met = met.saturating_add(names_of_sig(&ends.method));
        Ok(MetaEndpoints {
            sender,
            signal,
            receiver,
            method,
        })
    }
}
