//! How many expressions a bind, a write and a group of writes evaluate: those that follow, each once, and no others.

ghost use Rattle.std.specs.Prelude.{IfOk};
ghost use Rattle.object_tree.specs.Typed.{AreTyped};
ghost use Rattle.prop_bindings.specs.Fits.{Agree};

use crate::calls::loading::loaded;
use anyhow::{Result, anyhow};
use basic_types::{LoopId, Name, ObjectId, Value};
use meta_model::Meta;
use object_tree::Tree;
use prop_bindings::{Assignment, Bindings, Place};
use std::alloc::{AllocError, Global};

/// Two follow a property, one follows both; and one that has nothing to do with them.
pub const FOLLOWERS: &str =
    "class X { property int x; } class Y { property int y; } class Z { property int z; } class W { property int w; } class U { property int u; property int v; } binding by Y.y (X a) = a.x + 1; binding bz Z.z (X a) = a.x * 2; binding bw W.w (Y a, Z b) = a.y + b.z; binding bu U.u (U e) = e.v;";

/// A bind, a write or a group of writes.
enum BindingOperation {
    /// The binding of a site, of an object to others.
    Bind {
        site: usize,
        target: usize,
        sources: &'static [usize],
    },
    /// A number for a property of an object.
    Write {
        object: usize,
        property: usize,
        number: i32,
    },
    /// Numbers for properties of objects, at once: of each the object, the property and the number.
    Group {
        writes: &'static [(usize, usize, i32)],
    },
}

/// What is done one after another, under what is said of it.
const STEPS: &[(&str, BindingOperation)] = &[
    (
        "bind y to x",
        BindingOperation::Bind {
            site: 0,
            target: 1,
            sources: &[0],
        },
    ),
    (
        "bind z to x",
        BindingOperation::Bind {
            site: 1,
            target: 2,
            sources: &[0],
        },
    ),
    (
        "bind w to y and z",
        BindingOperation::Bind {
            site: 2,
            target: 3,
            sources: &[1, 2],
        },
    ),
    (
        "bind u to v",
        BindingOperation::Bind {
            site: 3,
            target: 4,
            sources: &[4],
        },
    ),
    (
        "write 5 to x",
        BindingOperation::Write {
            object: 0,
            property: 1,
            number: 5,
        },
    ),
    (
        "write 5 to x again",
        BindingOperation::Write {
            object: 0,
            property: 1,
            number: 5,
        },
    ),
    (
        "write 2 to v",
        BindingOperation::Write {
            object: 4,
            property: 2,
            number: 2,
        },
    ),
    (
        "bind y to x again",
        BindingOperation::Bind {
            site: 0,
            target: 1,
            sources: &[0],
        },
    ),
    (
        "write 6 to x and 20 to z, which follows x",
        BindingOperation::Group {
            writes: &[(0, 1, 6), (2, 1, 20)],
        },
    ),
    (
        "write both again",
        BindingOperation::Group {
            writes: &[(0, 1, 6), (2, 1, 20)],
        },
    ),
    ("write nothing", BindingOperation::Group { writes: &[] }),
    (
        "write 7 to x and 21 to z, which w follows",
        BindingOperation::Group {
            writes: &[(0, 1, 7), (2, 1, 21)],
        },
    ),
];

/// Creates an object of a class, under the class's name.
fn create(alloc: Global, meta: &Meta, tree: &mut Tree, class: &[u8]) -> Result<()>
    ensures { AreTyped meta.now tree.old → AreTyped meta.now tree.new }
{
    let Some(name) = Name::of(alloc, class)? else {
        return Err(anyhow!("no name"));
    };
    tree.create(meta, &name, &name, LoopId::new(0))?;
    Ok(())
}

/// An object of each class, in their order.
pub fn stocked(alloc: Global, meta: &Meta) -> Result<Tree>
    ensures { IfOk result (λ tree. AreTyped meta.now tree) }
{
    let mut tree = Tree::new(alloc);
    create(alloc, meta, &mut tree, b"X")?;
    create(alloc, meta, &mut tree, b"Y")?;
    create(alloc, meta, &mut tree, b"Z")?;
    create(alloc, meta, &mut tree, b"W")?;
    create(alloc, meta, &mut tree, b"U")?;
    Ok(tree)
}

/// The objects of these numbers.
fn objects(alloc: Global, numbers: &[usize]) -> Result<Vec<ObjectId>, AllocError> {
    let mut objects = Vec::new(alloc);
    for number in numbers {
        objects.push(ObjectId::new(*number))?;
    }
    Ok(objects)
}

/// The writes of these numbers: of each the object, the property and the number.
fn assignments(
    alloc: Global,
    numbers: &[(usize, usize, i32)],
) -> Result<Vec<Assignment>, AllocError> {
    let mut writes = Vec::new(alloc);
    for (object, property, number) in numbers {
        let place = Place {
            object: ObjectId::new(*object),
            property: *property,
        };
        let value = Value::Int(*number);
        writes.push(Assignment { place, value })?;
    }
    Ok(writes)
}

/// Takes a step, and answers how many properties it changes.
fn take(
    alloc: Global,
    meta: &Meta,
    tree: &mut Tree,
    bindings: &mut Bindings,
    step: &BindingOperation,
) -> Result<usize>
    requires { Agree meta.now tree.old bindings.old.installed }
    ensures { Agree meta.now tree.new bindings.new.installed }
{
    match step {
        BindingOperation::Bind {
            site,
            target,
            sources,
        } => {
            let sources = objects(alloc, sources)?;
            let target = ObjectId::new(*target);
            let changed = bindings.bind(meta, tree, *site, target, sources.as_slice())?;
            Ok(changed.len())
        }
        BindingOperation::Write {
            object,
            property,
            number,
        } => {
            let place = Place {
                object: ObjectId::new(*object),
                property: *property,
            };
            let changed = bindings.write(meta, tree, &place, Value::Int(*number))?;
            Ok(changed.len())
        }
        BindingOperation::Group { writes } => {
            let writes = assignments(alloc, writes)?;
            let changed = bindings.write_group(meta, tree, &writes)?;
            Ok(changed.len())
        }
    }
}

/// Writes how many expressions each step evaluates, and how many properties it changes.
fn tell_steps<R: Print + AllocGlobal>(
    rt: &R,
    meta: &Meta,
    tree: &mut Tree,
    bindings: &mut Bindings,
) -> Result<()>
    requires { Agree meta.now tree.old bindings.old.installed }
{
    for (title, step) in STEPS {
        let changed = take(rt.alloc(), meta, tree, bindings, step)?;
        let evaluated = bindings.last_evaluated();
        println!(rt; "{title}: {evaluated} evaluated, {changed} changed")?;
    }
    Ok(())
}

/// Writes what binds and writes evaluate and change, the value that follows two others, and how many bindings are left once
/// its object is dropped.
pub fn tell_following<R: Print + AllocGlobal>(rt: &R) -> Result<()> {
    let meta = loaded(rt.alloc(), FOLLOWERS)?;
    let mut tree = stocked(rt.alloc(), &meta)?;
    let mut bindings = Bindings::new(rt.alloc());
    tell_steps(rt, &meta, &mut tree, &mut bindings)?;
    let is_29 = match tree.value(ObjectId::new(3), 1) {
        Some(value) => value.is_same(&Value::Int(29)),
        None => false,
    };
    println!(rt; "w is 29: {is_29}")?;
    tell_dropped(rt, &mut bindings)
}

/// Drops the object of `w`, and writes how many bindings are left, and the last count of evaluations.
fn tell_dropped(rt: &impl Print, bindings: &mut Bindings) -> Result<()> {
    bindings.drop_object(ObjectId::new(3));
    let left = (0..4)
        .filter(|place| bindings.get(*place).is_some())
        .count();
    let evaluated = bindings.last_evaluated();
    println!(rt; "without the object of w: {left} bindings, {evaluated} evaluated")?;
    Ok(())
}
