//! Who is above whom, and who may be adopted by whom.

ghost use Rattle.std.specs.Prelude.{◌↔◌, IsTrue};
ghost use Rattle.object_tree.specs.Adopting.{JudgesAdoption};
ghost use Rattle.object_tree.specs.Family.{Above};
ghost use Rattle.object_tree.specs.Forest.{Forest};

use crate::fault::AdoptFault;
use crate::life::Life;
use crate::objects::Objects;
use basic_types::ObjectId;
use meta_model::Meta;

/// Whether the first object is the second or one of its ancestors, which are counted up to the first dead one.
fn is_above(objects: &Objects, above: ObjectId, object: ObjectId) -> bool
    requires { Forest objects.now }
    ensures { IsTrue result ↔ Above objects.now above object }
{
    let mut at = object;
    'climb: while at != above {
        match objects.parent(at) {
            Some(parent) => at = parent,
            None => return false,
        }
    }
    true
}

/// Whether the child is the parent or one of its ancestors. One that has no children is above nobody else, so that nothing
/// is walked for it.
fn closes_cycle(objects: &Objects, parent: ObjectId, child: ObjectId) -> bool
    requires { Forest objects.now }
    ensures { IsTrue result ↔ Above objects.now child parent }
{
    match objects.first_child(child) {
        None => child == parent,
        Some(_) => is_above(objects, child, parent),
    }
}

/// Whether a living object may become the parent of another, `owner` and `owned` being their lives, or why not.
pub fn may_adopt(
    meta: &Meta,
    objects: &Objects,
    parent: ObjectId,
    owner: &Life,
    child: ObjectId,
    owned: &Life,
) -> Result<(), AdoptFault>
    requires { Forest objects.now }
    ensures { JudgesAdoption meta.now objects.now parent child owner.now owned.now result }
{
    if !meta.owns(owner.class, owned.class) {
        return Err(AdoptFault::NotOwned);
    }
    if closes_cycle(objects, parent, child) {
        return Err(AdoptFault::Cycle);
    }
    if owner.home != owned.home {
        return Err(AdoptFault::OtherLoop);
    }
    Ok(())
}
