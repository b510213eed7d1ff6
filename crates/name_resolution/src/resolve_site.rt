//! Binding sites whose names are replaced by numbers.

ghost use Rattle.std.specs.Prelude.{◌≡◌};
ghost use Rattle.class_outlines.specs.Offences.{fault_in};
ghost use Rattle.class_outlines.specs.declared.fault.MetaFault.TheVariants.{NoMember};
ghost use Rattle.name_resolution.specs.code.Resolving.{Resolves, ResolvesAll, ResolvesEach};
ghost use Rattle.name_resolution.specs.code.Sites.{IsFormalOf, IsFormula, IsSite};

use crate::literals::literal_of;
use crate::missing::{no_property, undeclared};
use class_outlines::{
    ClassTable, Declaration, LoadFault, Missing, PartFault, find, names_before_expression,
    property_in, source_property,
};
use meta_model::{Formula, MetaSite, SourceProperty};
use sqlite_items::{Boxed, Items};
use std::alloc::Global;
use syntax_trees::{Expr, Formal, Path, Program, Root, Site};

/// The sites in their order; `NoMember` where a name in one of them isn't there.
pub fn resolve_sites(
    alloc: Global,
    program: &Program,
    outlines: &ClassTable,
) -> Result<Items<MetaSite>, LoadFault>
    ensures { ResolvesAll program.now (IsSite outlines.now) program.now.sites result }
{
    let mut loaded = Items::new(alloc);
    for (place, site) in program.sites.as_slice().iter().enumerate() {
        match resolve_site(alloc, outlines, site) {
            Ok(site) => loaded.push(site)?,
            Err(fault) => return Err(fault.of(Declaration::Site(place))),
        }
    }
    Ok(loaded)
}

/// The site; `NoMember` where a name in it isn't there.
fn resolve_site(alloc: Global, outlines: &ClassTable, site: &Site) -> Result<MetaSite, PartFault>
    ensures { Resolves (IsSite outlines.now site.now) result }
{
    let Some(target) = property_in(outlines, &site.class, &site.property) else {
        return Err(no_property(outlines, &site.class, 2));
    };
    let formals = resolve_formals(alloc, outlines, site.formals.as_slice())?;
    let mut met = names_before_expression(site);
    let expression = resolve_formula(alloc, outlines, site, &site.expression, &mut met)?;
    let formula = Formula::new(alloc, expression)?;
    let name = site.name.copy()?;
    Ok(MetaSite {
        name,
        class: target.class,
        property: target.place,
        formals,
        formula,
    })
}

/// The classes of the formal sources.
fn resolve_formals(
    alloc: Global,
    outlines: &ClassTable,
    formals: &[Formal],
) -> Result<Items<usize>, PartFault>
    ensures { ResolvesEach (IsFormalOf outlines.now) formals.now result }
{
    let mut classes = Items::new(alloc);
    let mut met = 3usize;
    for formal in formals {
        let Some(class) = outlines.place_of(&formal.class) else {
            return Err(undeclared(met, Missing::Class));
        };
        classes.push(class)?;
        met = met.saturating_add(2);
    }
    Ok(classes)
}

/// The expression; `NoMember` where one of its paths is no property of a formal source. So many of the site's names were
/// met, to which those of the expression are added.
fn resolve_formula(
    alloc: Global,
    outlines: &ClassTable,
    site: &Site,
    expression: &Expr<Path>,
    met: &mut usize,
) -> Result<Expr<SourceProperty>, PartFault>
    ensures { Resolves (IsFormula outlines.now site.now expression.now) result }
{
    match expression {
        Expr::Literal(value) => {
            let value = literal_of(value)?;
            Ok(Expr::Literal(value))
        }
        Expr::Path(path) => {
            let Some(found) = source_property(outlines, site, path) else {
                return Err(no_source(outlines, site, path, *met));
            };
            *met = met.saturating_add(2);
            Ok(Expr::Path(found.source))
        }
        Expr::Unary(operator, operand) => {
            let operand = resolve_formula(alloc, outlines, site, operand.get(), met)?;
            let operand = Boxed::new(alloc, operand)?;
            Ok(Expr::Unary(*operator, operand))
        }
        Expr::Binary(operator, left, right) => {
            let left = resolve_formula(alloc, outlines, site, left.get(), met)?;
            let left = Boxed::new(alloc, left)?;
            let right = resolve_formula(alloc, outlines, site, right.get(), met)?;
            let right = Boxed::new(alloc, right)?;
            Ok(Expr::Binary(*operator, left, right))
        }
    }
}

/// That the path, whose first name has this number, is no property of a formal source.
fn no_source(outlines: &ClassTable, site: &Site, path: &Path, name: usize) -> PartFault
    ensures { fault_in result ≡ NoMember }
{
    let Root::Name(root) = &path.root else {
        return undeclared(name, Missing::Formal);
    };
    match find(site.formals.as_slice(), root) {
        Some((_, formal)) => no_property(outlines, &formal.class, name.saturating_add(1)),
        None => undeclared(name, Missing::Formal),
    }
}
