//! References that binding sites take.

ghost use Rattle.std.specs.Prelude.{◌≡◌, IfOk, Any};
ghost use Rattle.name_indexes.specs.LookUps.{Tells};
ghost use Rattle.class_outlines.specs.Offences.{fault_of, TellsBreach, TellsOffence};
ghost use Rattle.meta_model.specs.Sites.{paths_in};
ghost use Rattle.class_outlines.specs.DeclaredSites.{IsReferenceIn, ReadsReference, UsesReference};
ghost use Rattle.class_outlines.specs.declared.fault.MetaFault.TheVariants as fault;

use basic_types::{Name, QType};
use class_outlines::{
    Breach, ClassTable, Declaration, Offence, Reason, Unfit, names_before_expression, property_in,
    source_property,
};
use std::alloc::AllocError;
use syntax_trees::{Expr, Path, Program, Site};

/// The first binding site whose target, or a property that it reads, is a reference. The error is that memory was refused.
pub fn bound_reference(
    program: &Program,
    outlines: &ClassTable,
) -> Result<Option<Offence>, AllocError>
    ensures { IfOk result (TellsOffence program.now fault.NoType (Any (UsesReference outlines.now) program.now.sites)) }
{
    for (place, site) in program.sites.as_slice().iter().enumerate() {
        if let Some(breach) = used_reference(outlines, site)? {
            return Ok(Some(breach.of(Declaration::Site(place))));
        }
    }
    Ok(None)
}

/// The site's target, or the first property that it reads, which is a reference.
fn used_reference(outlines: &ClassTable, site: &Site) -> Result<Option<Breach>, AllocError>
    ensures { IfOk result (TellsBreach fault.NoType (UsesReference outlines.now site.now)) }
{
    if let Some(kind) = reference_in(outlines, &site.class, &site.property) {
        let breach = bound(2, kind)?;
        return Ok(Some(breach));
    }
    let mut name = names_before_expression(site);
    match read_reference(outlines, site, &site.expression, &mut name) {
        Some(kind) => {
            let breach = bound(name, kind)?;
            Ok(Some(breach))
        }
        None => Ok(None),
    }
}

/// That the property of this name is a reference, of this type, which no binding takes.
fn bound(name: usize, kind: &QType) -> Result<Breach, AllocError>
    ensures { IfOk result (λ breach. fault_of breach.reason ≡ fault.NoType) }
{
    let kind = kind.copy()?;
    Ok(Breach {
        name,
        reason: Reason::NoType(Unfit::Bound(kind)),
    })
}

/// The type of the property of this name, in the class of this name, where it is a reference.
pub fn reference_in<'a>(outlines: &'a ClassTable, class: &Name, name: &Name) -> Option<&'a QType>
    ensures { Tells (IsReferenceIn outlines.now class.now name.now) result }
{
    let Some(found) = property_in(outlines, class, name) else {
        return None;
    };
    if found.property.kind.pointer {
        Some(&found.property.kind)
    } else {
        None
    }
}

/// The type of the first path of the expression that is a reference. So many names stand before the expression; those in
/// front of that property are added.
fn read_reference<'a>(
    outlines: &'a ClassTable,
    site: &Site,
    expression: &Expr<Path>,
    names: &mut usize,
) -> Option<&'a QType>
    ensures { Tells (Any (ReadsReference outlines.now site.now) (paths_in expression.now)) result }
{
    match expression {
        Expr::Literal(_) => None,
        Expr::Path(path) => {
            *names = names.saturating_add(1);
            match reference_at(outlines, site, path) {
                Some(kind) => Some(kind),
                None => {
                    *names = names.saturating_add(1);
                    None
                }
            }
        }
        Expr::Unary(_, operand) => read_reference(outlines, site, operand.get(), names),
        Expr::Binary(_, left, right) => {
            match read_reference(outlines, site, left.get(), names) {
                Some(kind) => Some(kind),
                None => read_reference(outlines, site, right.get(), names),
            }
        }
    }
}

/// The type of the property that the path leads to, where it is a reference.
fn reference_at<'a>(outlines: &'a ClassTable, site: &Site, path: &Path) -> Option<&'a QType>
    ensures { Tells (ReadsReference outlines.now site.now path.now) result }
{
    let Some(found) = source_property(outlines, site, path) else {
        return None;
    };
    if found.property.kind.pointer {
        Some(&found.property.kind)
    } else {
        None
    }
}
