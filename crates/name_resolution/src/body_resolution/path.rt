//! Paths whose names are resolved.

ghost use Rattle.std.specs.Prelude.{◌≡◌};
ghost use Rattle.class_outlines.specs.Offences.{fault_in};
ghost use Rattle.class_outlines.specs.declared.fault.MetaFault.TheVariants.{NoMember};
ghost use Rattle.name_resolution.specs.code.Bodies.{IsReferencePath};
ghost use Rattle.name_resolution.specs.code.Resolving.{scope, Resolves, ResolvesPath, ResolvesFrom, ResolvesObject};
ghost use Rattle.name_resolution.specs.code.Resolving.{FindsClass, FindsMember};

use crate::body_resolution::scope::Scope;
use crate::missing::undeclared;
use basic_types::{Name, QType};
use class_outlines::{IndexedOutline, Missing, PartFault, find, read_type, reference_to};
use meta_model::{MetaPath, MetaRoot, Step};
use sqlite_items::Items;
use syntax_trees::{Path, Property, Root};

/// A path whose names are resolved, and the type of what it is declared to lead to.
#[derive(Drop)]
pub struct Led {
    pub path: MetaPath,
    pub kind: QType,
}

/// A path in the place of an object, whose names are resolved, and the class that it is declared to lead to.
#[derive(Drop)]
pub struct ResolvedTarget<'a> {
    pub path: MetaPath,
    /// The class's number.
    pub number: usize,
    pub class: &'a IndexedOutline,
}

impl<'a> Scope<'a> {
    /// The path in the place of an object; `NoMember` where a name in it isn't there, or it isn't declared to lead to
    /// objects of a class that is there. So many of the slot's names were met, to which those of the path are added.
    pub fn resolve_object(
        &self,
        path: &Path,
        met: &mut usize,
    ) -> Result<ResolvedTarget<'a>, PartFault>
        ensures { ResolvesObject (scope self.now) path.now result }
    {
        let Led { path, kind } = self.resolve_path(path, met)?;
        let Some((number, class)) = self.find_class(&kind) else {
            return Err(undeclared(met.saturating_sub(1), Missing::Object(kind)));
        };
        Ok(ResolvedTarget {
            path,
            number,
            class,
        })
    }

    /// The path in the place of an object of which no member is named; `NoMember` where a name in it isn't there, or it
    /// isn't declared to lead to a reference. The class of the reference is left to the judgement of the declared types.
    pub fn resolve_reference(&self, path: &Path, met: &mut usize) -> Result<MetaPath, PartFault>
        ensures { Resolves (IsReferencePath (scope self.now) path.now) result }
    {
        let Led { path, kind } = self.resolve_path(path, met)?;
        if !kind.pointer {
            return Err(undeclared(met.saturating_sub(1), Missing::Object(kind)));
        }
        Ok(path)
    }

    /// The path; `NoMember` where a name in it isn't there.
    pub fn resolve_path(&self, path: &Path, met: &mut usize) -> Result<Led, PartFault>
        ensures { ResolvesPath (scope self.now) path.now result }
    {
        match &path.root {
            Root::This => {
                let start = reference_to(self.me)?;
                self.resolve_from(MetaRoot::This, start, path.properties.as_slice(), met)
            }
            Root::Name(name) => {
                let Some((place, parameter)) = find(self.parameters, name) else {
                    return Err(undeclared(*met, self.no_parameter(name)));
                };
                *met = met.saturating_add(1);
                let start = parameter.kind.copy()?;
                let root = MetaRoot::Parameter(place);
                self.resolve_from(root, start, path.properties.as_slice(), met)
            }
        }
    }

    /// That the slot has no parameter of this name, and whether its class has a property of it.
    fn no_parameter(&self, name: &Name) -> Missing {
        match self.outlines.find(self.me) {
            Some((_, class)) => Missing::Parameter(class.find_property(name).is_some()),
            None => Missing::Parameter(false),
        }
    }

    /// The path of these properties from a root of this type.
    fn resolve_from(
        &self,
        root: MetaRoot,
        start: QType,
        names: &[Name],
        met: &mut usize,
    ) -> Result<Led, PartFault>
        ensures { ResolvesFrom self.now.outlines.now root start names.now result }
    {
        let mut kind = start;
        let mut steps = Items::from_vec(Vec::with_capacity(self.alloc, names.len())?);
        for name in names {
            let Some((property, found)) = self.find_member(&kind, name) else {
                return Err(self.no_member(*met, kind));
            };
            let read = read_type(self.outlines, &found.kind);
            steps.push(Step {
                property,
                kind: read,
            })?;
            let next = found.kind.copy()?;
            kind = next;
            *met = met.saturating_add(1);
        }
        Ok(Led {
            path: MetaPath { root, steps },
            kind,
        })
    }

    /// That the property of this number among the slot's names isn't there, behind what is of this type.
    fn no_member(&self, name: usize, kind: QType) -> PartFault
        ensures { fault_in result ≡ NoMember }
    {
        match self.find_class(&kind) {
            Some((number, _)) => undeclared(name, Missing::Property(number)),
            None => undeclared(name.saturating_sub(1), Missing::Object(kind)),
        }
    }

    /// The class that the type points to, with its number; `None` where the type is no pointer, or there is no such class.
    pub fn find_class(&self, kind: &QType) -> Option<(usize, &'a IndexedOutline)>
        ensures { FindsClass self.now.outlines.now kind.now result }
    {
        if kind.pointer {
            let Some((number, outline)) = self.outlines.find(&kind.name) else {
                return None;
            };
            Some((number, outline))
        } else {
            None
        }
    }

    /// The property of this name in the class that the type points to, with its number.
    fn find_member(&self, kind: &QType, name: &Name) -> Option<(usize, &'a Property)>
        ensures { FindsMember self.now.outlines.now kind.now name.now result }
    {
        let Some((_, outline)) = self.find_class(kind) else {
            return None;
        };
        let Some((number, property)) = outline.find_property(name) else {
            return None;
        };
        Some((number, property))
    }
}
