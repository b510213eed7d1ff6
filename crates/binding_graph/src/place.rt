//! Properties of objects.

ghost use Rattle.std.specs.Prelude.{◌≡◌};
ghost use Rattle.binding_graph.specs.Places.{same_place, is_in};
ghost use Rattle.binding_graph.specs.code.Keys.{key_of};
ghost use Rattle.binding_graph.specs.code.Lists.{place_at};

use basic_types::ObjectId;

/// A property of an object.
#[derive(Clone, Copy, Debug, PartialEq, Eq)]
pub struct Place {
    /// The object.
    pub object: ObjectId,
    /// The property's number in the object's class.
    pub property: usize,
}

impl Place {
    /// The property with these numbers.
    pub fn at(key: (usize, usize)) -> Place
        ensures { result ≡ place_at key }
    {
        Place {
            object: ObjectId::new(key.0),
            property: key.1,
        }
    }

    /// The numbers by which it is looked up.
    pub fn key(&self) -> (usize, usize)
        ensures { result ≡ key_of self.now }
    {
        (self.object.number(), self.property)
    }

    /// Whether both are one property of one object.
    pub fn is_same(&self, other: &Place) -> bool
        ensures { result ≡ same_place self.now other.now }
    {
        self.object == other.object && self.property == other.property
    }
}

/// Whether the property is among these.
pub fn contains(places: &[Place], place: &Place) -> bool
    ensures { result ≡ is_in places.now place.now }
{
    for each in places {
        if each.is_same(place) {
            return true;
        }
    }
    false
}
