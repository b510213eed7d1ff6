//! Typed binding sites.

ghost use Rattle.std.specs.Prelude.{◌≡◌, IfOk, MatchOption};
ghost use Rattle.type_check.specs.Firsts.{FindsWithout};
ghost use Rattle.type_check.specs.Typed.{kind_in, IsTypedSite};

use crate::accepting::is_given;
use crate::flaws::{TypeFault, TypeFlaw, fault_in};
use crate::naming::spelled;
use basic_types::QType;
use expressions::Names;
use meta_model::{Meta, MetaSite, SourceProperty, ValueType};
use std::alloc::{AllocError, Global};

/// The formal sources of a binding site, by their classes.
#[derive(Clone, Copy)]
struct Formals<'m> {
    alloc: Global,
    meta: &'m Meta,
    classes: &'m [usize],
}

impl<'m> Names<SourceProperty> for Formals<'m> {
    ghost use Rattle.type_check.specs.Accepting.{spelled_types};
    ghost use Rattle.type_check.specs.Typed.{kind_of_source};

    ghost types = { λ formals. spelled_types formals.meta.now (kind_of_source formals.meta.now formals.classes.now) };

    fn kind(&self, path: &SourceProperty) -> Result<Option<QType>, AllocError> {
        let Some(class) = self.classes.get(path.source) else {
            return Ok(None);
        };
        match kind_in(self.meta, *class, path.property) {
            Some(kind) => spelled(self.alloc, self.meta, kind),
            None => Ok(None),
        }
    }
}

/// The declared type of the property of the class of this number.
fn kind_in(meta: &Meta, class: usize, property: usize) -> Option<ValueType>
    ensures { result ≡ kind_in meta.now class property }
{
    let object = meta.object(class)?;
    let property = object.property(property)?;
    Some(property.kind)
}

/// Why the expression of the site isn't of its target's type, if it isn't. Its error is that memory was refused.
pub fn site_flaw(
    alloc: Global,
    meta: &Meta,
    site: &MetaSite,
) -> Result<Option<TypeFlaw>, AllocError>
    ensures { IfOk result (λ found.
        let Typed = IsTypedSite meta.now site.now in
        MatchOption found Typed (λ flaw. (Typed → ⊥) × (flaw.statement ≡ None))) }
{
    let Some(kind) = kind_in(meta, site.class, site.property) else {
        return Ok(Some(flaw(TypeFault::Unknown(0))));
    };
    let formals = Formals {
        alloc,
        meta,
        classes: site.formals.as_slice(),
    };
    let expression = site.formula.expression();
    if is_given(alloc, meta, kind, expression, &formals)? {
        return Ok(None);
    }
    let fault = fault_in(alloc, meta, 0, kind, expression, &formals)?;
    Ok(Some(flaw(fault)))
}

/// What isn't typed in a binding.
fn flaw(fault: TypeFault) -> TypeFlaw
    ensures { result.statement ≡ None }
{
    TypeFlaw {
        statement: None,
        fault,
    }
}

/// The number of the first binding site whose expression isn't of its target's type. Its error is that memory was refused.
pub fn untyped_site(alloc: Global, meta: &Meta) -> Result<Option<usize>, AllocError>
    ensures { IfOk result (FindsWithout (IsTypedSite meta.now) meta.now.sites) }
{
    for (number, site) in meta.sites().iter().enumerate() {
        match site_flaw(alloc, meta, site)? {
            Some(_) => return Ok(Some(number)),
            None => {}
        }
    }
    Ok(None)
}
