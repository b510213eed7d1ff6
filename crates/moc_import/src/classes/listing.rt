//! Which classes are imported, in which order, and under which names.

use crate::classes::catalogue::{Listed, NoClass, QOBJECT, may_be_class};
use crate::classes::class_names::{MocClassNames, NamedPlaces};
use crate::classes::moc::MocClass;
use crate::classes::read_classes::ReadClasses;
use crate::classes::scopes::{full_name, is_called, nearer, nearness, own_name};
use std::alloc::{AllocError, Global};
use std::collections::HashMap;

/// The classes that are imported, with their names, and those that are left out.
#[derive(Drop)]
pub struct Listing<'f> {
    pub classes: Vec<Listed<'f>>,
    pub names: Vec<String>,
    /// The numbers of the classes by these names.
    pub named: HashMap<String, usize>,
    pub left_out: Vec<(&'f MocClass, NoClass)>,
    /// The numbers of the classes by their names in C++ with their scopes.
    by_full_name: NamedPlaces<'f>,
}

/// A class that is read, and what is known of it.
#[derive(Clone, Copy)]
struct Candidate<'f> {
    class: &'f MocClass,
    /// The place of its base among those that are read.
    base: Option<usize>,
    is_wanted: bool,
    /// Its number, once it is listed.
    number: Option<usize>,
}

impl<'f> Listing<'f> {
    /// Lists the objects' classes; where some are named, these and their bases alone.
    pub fn of(
        alloc: Global,
        read: &ReadClasses<'f>,
        only: &[&str],
    ) -> Result<Listing<'f>, AllocError> {
        let mut candidates = candidates(alloc, read, only)?;
        want_bases(&mut candidates);
        listing_of(alloc, &mut candidates)
    }

    /// The numbers of the classes by their names in C++.
    pub fn cpp_names(&self, alloc: Global) -> Result<MocClassNames<'f>, AllocError> {
        let mut names = MocClassNames::new(alloc);
        for (number, listed) in self.classes.iter().enumerate() {
            names.add(alloc, listed.class, number)?;
        }
        Ok(names)
    }

    /// Lists the classes that are wanted, the bases first.
    fn list(
        &mut self,
        alloc: Global,
        candidates: &mut Vec<Candidate<'f>>,
    ) -> Result<(), AllocError> {
        // Each round lists one at least, as long as bases lead to no circle.
        for _ in 0..candidates.len() {
            let before = self.classes.len();
            for place in 0..candidates.len() {
                self.list_one(alloc, candidates, place)?;
            }
            if self.classes.len() == before {
                break;
            }
        }
        Ok(())
    }

    /// Lists the class of this place, if it is wanted, isn't listed yet, and its base needn't be waited for.
    fn list_one(
        &mut self,
        alloc: Global,
        candidates: &mut Vec<Candidate<'f>>,
        place: usize,
    ) -> Result<(), AllocError> {
        let Some(candidate) = candidates.get(place).copied() else {
            return Ok(());
        };
        if !candidate.is_wanted || candidate.number.is_some() {
            return Ok(());
        }
        let number = match self.twin(candidate.class) {
            Some(number) => number,
            None => {
                let Some(base) = base_number(candidates.as_slice(), candidate) else {
                    return Ok(());
                };
                let class = candidate.class;
                self.push(alloc, Listed { class, base })?
            }
        };
        if let Some(listed) = candidates.get_mut(place) {
            listed.number = Some(number);
        }
        Ok(())
    }

    /// Adds a class, with its name, and answers its number.
    fn push(&mut self, alloc: Global, listed: Listed<'f>) -> Result<usize, AllocError> {
        let number = self.classes.len();
        self.by_full_name
            .add(alloc, full_name(listed.class), number)?;
        self.classes.push(listed)?;
        let name = self.free_name(alloc, listed.class)?;
        self.push_name(name, number)?;
        Ok(number)
    }

    /// Adds the name of the class of this number.
    fn push_name(&mut self, name: String, number: usize) -> Result<(), AllocError> {
        self.named.insert(name.clone()?, number)?;
        self.names.push(name)?;
        Ok(())
    }

    /// The number of the class of the same name and scope, which another text may have too.
    fn twin(&self, class: &MocClass) -> Option<usize> {
        self.by_full_name.of(full_name(class)).first().copied()
    }

    /// The name that the class gets: its own, or where another class has that, its name with its scope in front.
    fn free_name(&self, alloc: Global, class: &MocClass) -> Result<String, AllocError> {
        let mut name = self.first_name(alloc, class)?;
        // Each `_` steps past a name at least.
        for _ in 0..self.names.len() {
            if !self.is_taken(name.as_str()) {
                break;
            }
            name.push_str("_")?;
        }
        Ok(name)
    }

    /// The name that the class gets where no other one has it.
    fn first_name(&self, alloc: Global, class: &MocClass) -> Result<String, AllocError> {
        let own = own_name(class);
        if self.is_taken(own) {
            let scoped = scoped_name(alloc, class)?;
            if may_be_class(scoped.as_str()) {
                return Ok(scoped);
            }
        }
        String::from_str(alloc, own)
    }

    fn is_taken(&self, name: &str) -> bool {
        self.named.get(name).is_some()
    }

    /// Notes which classes of objects are left out.
    fn leave_out(&mut self, candidates: &[Candidate<'f>]) -> Result<(), AllocError> {
        for candidate in candidates {
            let class = candidate.class;
            if class.object && !is_object(class) && own_name(class) != QOBJECT {
                self.left_out.push((class, NoClass::Name))?;
            } else if candidate.is_wanted && candidate.number.is_none() {
                self.left_out.push((class, NoClass::Circle))?;
            }
        }
        Ok(())
    }
}

/// The listing of those that are wanted.
fn listing_of<'f>(
    alloc: Global,
    candidates: &mut Vec<Candidate<'f>>,
) -> Result<Listing<'f>, AllocError> {
    let mut listing = Listing {
        classes: Vec::new(alloc),
        names: Vec::new(alloc),
        named: HashMap::new(alloc),
        left_out: Vec::new(alloc),
        by_full_name: NamedPlaces::new(alloc),
    };
    listing.list(alloc, candidates)?;
    listing.leave_out(candidates.as_slice())?;
    Ok(listing)
}

/// The classes with their bases; those that are named are wanted, and all where none is.
fn candidates<'f>(
    alloc: Global,
    read: &ReadClasses<'f>,
    only: &[&str],
) -> Result<Vec<Candidate<'f>>, AllocError> {
    let mut candidates = Vec::new(alloc);
    for class in read.all.as_slice() {
        candidates.push(Candidate {
            class: *class,
            base: base_of(read, class),
            is_wanted: is_object(class) && is_named(class, only),
            number: None,
        })?;
    }
    Ok(candidates)
}

/// Whether the class is among those that are named, or none is named.
fn is_named(class: &MocClass, only: &[&str]) -> bool {
    for name in only {
        if is_called(class, name) {
            return true;
        }
    }
    only.is_empty()
}

/// The place of the class's first base.
fn base_of(read: &ReadClasses<'_>, class: &MocClass) -> Option<usize> {
    let name = class.super_classes.first()?.name.as_str();
    let mut nearest = None;
    for place in read.names.near(name) {
        if let Some(near) = nearness_as_base(read, *place, name, class) {
            nearest = nearer(nearest, *place, near);
        }
    }
    let (place, _) = nearest?;
    Some(place)
}

/// How near to the class the one of this place is, which may be its base of this name.
fn nearness_as_base(
    read: &ReadClasses<'_>,
    place: usize,
    name: &str,
    class: &MocClass,
) -> Option<usize> {
    let it = read.all.get(place)?;
    if is_object(it) {
        nearness(it, name, full_name(class))
    } else {
        None
    }
}

/// The number of the candidate's base, where that needn't be waited for: `Some(None)` where no base of it is read.
fn base_number(candidates: &[Candidate<'_>], candidate: Candidate<'_>) -> Option<Option<usize>> {
    let Some(place) = candidate.base else {
        return Some(None);
    };
    match candidates.get(place) {
        Some(base) => Some(Some(base.number?)),
        None => Some(None),
    }
}

/// Wants the bases of what is wanted.
fn want_bases(candidates: &mut Vec<Candidate<'_>>) {
    // A chain of bases is no longer than there are classes.
    for _ in 0..candidates.len() {
        let mut is_done = true;
        for place in 0..candidates.len() {
            if want_base(candidates, place) {
                is_done = false;
            }
        }
        if is_done {
            break;
        }
    }
}

/// Wants the base of the class of this place, if that is wanted, and answers whether the base wasn't.
fn want_base(candidates: &mut Vec<Candidate<'_>>, place: usize) -> bool {
    let Some(candidate) = candidates.get(place).copied() else {
        return false;
    };
    if !candidate.is_wanted {
        return false;
    }
    let Some(base) = candidate.base else {
        return false;
    };
    match candidates.get_mut(base) {
        Some(base) => {
            let is_new = !base.is_wanted;
            base.is_wanted = true;
            is_new
        }
        None => false,
    }
}

/// Whether the class is one of objects, and not `QObject`, which the language has.
fn is_object(class: &MocClass) -> bool {
    class.object && may_be_class(own_name(class))
}

/// The class's name with its scope, as one name.
fn scoped_name(alloc: Global, class: &MocClass) -> Result<String, AllocError> {
    let mut name = String::new(alloc);
    for part in full_name(class).split("::") {
        if !name.is_empty() {
            name.push_str("_")?;
        }
        name.push_str(part)?;
    }
    Ok(name)
}
