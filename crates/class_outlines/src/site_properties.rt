//! The properties that binding sites name.

ghost use Rattle.class_outlines.specs.DeclaredSites.{FindsProperty, FindsSource};

use crate::class_table::ClassTable;
use crate::places::find;
use basic_types::Name;
use meta_model::SourceProperty;
use syntax_trees::{Path, Property, Root, Site};

/// A property of a class, by the numbers of both.
#[derive(Clone, Copy)]
pub struct FoundProperty<'a> {
    pub class: usize,
    pub place: usize,
    pub property: &'a Property,
}

/// A property of a formal source.
#[derive(Clone, Copy)]
pub struct FoundSource<'a> {
    pub source: SourceProperty,
    pub property: &'a Property,
}

/// The property of this name of the class of this name.
pub fn property_in<'a>(
    outlines: &'a ClassTable,
    class: &Name,
    name: &Name,
) -> Option<FoundProperty<'a>>
    ensures { FindsProperty outlines.now class.now name.now result }
{
    let (class, outline) = outlines.find(class)?;
    let (place, property) = outline.find_property(name)?;
    Some(FoundProperty {
        class,
        place,
        property,
    })
}

/// The property of a formal source that the path leads to, or `None` where the path is none.
pub fn source_property<'a>(
    outlines: &'a ClassTable,
    site: &Site,
    path: &Path,
) -> Option<FoundSource<'a>>
    ensures { FindsSource outlines.now site.now path.now result }
{
    let Root::Name(formal) = &path.root else {
        return None;
    };
    let [name] = path.properties.as_slice() else {
        return None;
    };
    let (source, formal) = find(site.formals.as_slice(), formal)?;
    let found = property_in(outlines, &formal.class, name)?;
    Some(FoundSource {
        source: SourceProperty {
            source,
            property: found.place,
        },
        property: found.property,
    })
}
