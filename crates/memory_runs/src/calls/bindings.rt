//! The calls of the store of bindings.

ghost use Rattle.object_tree.specs.Typed.{AreTyped};
ghost use Rattle.prop_bindings.specs.Fits.{Agree};

use crate::calls::holding::Bound;
use crate::calls::holds::{Reportable, is_as_told, told_of};
use crate::calls::stores::put;
use crate::once_or_twice;
use crate::trials::{ReportBuffer, TrialAnswer, loaded};
use basic_types::{ObjectId, Value};
use meta_model::Meta;
use object_tree::Tree;
use prop_bindings::{Assignment, BindFault, Bindings, Place, WriteFault};
use std::alloc::Global;

/// A program, of whose classes there is one object each, and what is done with these one after another.
pub struct BindingCase {
    program: &'static str,
    classes: &'static [&'static [u8]],
    steps: &'static [BindingStep],
}

/// A bind, a write, or a group of writes.
enum BindingStep {
    /// The binding of a site, of an object to one or two others.
    Bind {
        site: usize,
        target: usize,
        sources: (usize, Option<usize>),
    },
    /// A number for the property that an object's class declares first.
    Write {
        object: usize,
        number: i32,
    },
    /// Numbers for the two properties that an object's class declares first, at once.
    Group {
        object: usize,
        numbers: (i32, i32),
    },
}

/// A sum that follows a number: the number is written, the sum is bound, and the number is written again.
pub const SUM: BindingCase = BindingCase {
    program: "class Cell { property int x; } class Adder { property int sum notify sumChanged(int); signal sumChanged(int); } binding sumOf Adder.sum (Cell c) = c.x + 1;",
    classes: &[b"Cell", b"Adder"],
    steps: &[
        BindingStep::Write {
            object: 0,
            number: 2147483646,
        },
        BindingStep::Bind {
            site: 0,
            target: 1,
            sources: (0, None),
        },
        BindingStep::Write {
            object: 0,
            number: 2147483647,
        },
    ],
};

/// Two that follow a number, and one that follows both: they are bound, and the number is written.
pub const DIAMOND: BindingCase = BindingCase {
    program: "class X { property int x notify xc(int); signal xc(int); } class Y { property int y notify yc(int); signal yc(int); } class Z { property int z notify zc(int); signal zc(int); } class W { property int w notify wc(int); signal wc(int); } binding by Y.y (X a) = a.x + 1; binding bz Z.z (X a) = a.x * 2; binding bw W.w (Y a, Z b) = a.y + b.z;",
    classes: &[b"X", b"Y", b"Z", b"W"],
    steps: &[
        BindingStep::Bind {
            site: 0,
            target: 1,
            sources: (0, None),
        },
        BindingStep::Bind {
            site: 1,
            target: 2,
            sources: (0, None),
        },
        BindingStep::Bind {
            site: 2,
            target: 3,
            sources: (1, Some(2)),
        },
        BindingStep::Write {
            object: 0,
            number: 5,
        },
    ],
};

/// A sum that follows two numbers, which are written at once.
pub const GROUP: BindingCase = BindingCase {
    program: "class X { property int a notify ac(int); property int b; signal ac(int); } class W { property int w notify wc(int); signal wc(int); } binding bw W.w (X x) = x.a + x.b;",
    classes: &[b"X", b"W"],
    steps: &[
        BindingStep::Bind {
            site: 0,
            target: 1,
            sources: (0, None),
        },
        BindingStep::Group {
            object: 0,
            numbers: (4, 5),
        },
    ],
};

/// The numbers of the first two properties that a class declares, behind `objectName`.
const FIRST: usize = 1;

const SECOND: usize = 2;

/// The step at this place, which is a call of `bind`, of `write` or of `write_group`, after those before it.
pub fn step_of(
    alloc: Global,
    row: &BindingCase,
    place: usize,
    told: &mut ReportBuffer,
) -> Option<TrialAnswer> {
    let meta = loaded(alloc, row.program)?;
    let mut tree = Tree::new(alloc);
    let mut bindings = Bindings::new(alloc);
    put_each(alloc, &meta, &mut tree, row.classes)?;
    last_step(
        alloc,
        &meta,
        &mut tree,
        &mut bindings,
        row.steps.get(..=place)?,
        told,
    )
}

/// Creates an object of each class, under the class's name.
fn put_each(alloc: Global, meta: &Meta, tree: &mut Tree, classes: &[&[u8]]) -> Option<()>
    requires { AreTyped meta.now tree.old }
    ensures { AreTyped meta.now tree.new }
{
    for class in classes {
        put(alloc, meta, tree, class, class, 0)?;
    }
    Some(())
}

/// Takes each step, and tells of the last one.
fn last_step(
    alloc: Global,
    meta: &Meta,
    tree: &mut Tree,
    bindings: &mut Bindings,
    steps: &[BindingStep],
    told: &mut ReportBuffer,
) -> Option<TrialAnswer>
    requires { Agree meta.now tree.old bindings.old.installed }
{
    let (last, first) = steps.split_last()?;
    take_each(meta, tree, bindings, first)?;
    let before = told_of(alloc, &Bound { tree, bindings })?;
    Some(once_or_twice!(
        tell_step(meta, tree, bindings, last, told),
        is_as_told(alloc, &Bound { tree, bindings }, &before)
    ))
}

/// Takes steps that are done.
fn take_each(
    meta: &Meta,
    tree: &mut Tree,
    bindings: &mut Bindings,
    steps: &[BindingStep],
) -> Option<()>
    requires { Agree meta.now tree.old bindings.old.installed }
    ensures { Agree meta.now tree.new bindings.new.installed }
{
    for step in steps {
        match take(meta, tree, bindings, step) {
            TrialAnswer::Ample => {}
            _ => return None,
        }
    }
    Some(())
}

fn tell_step(
    meta: &Meta,
    tree: &mut Tree,
    bindings: &mut Bindings,
    step: &BindingStep,
    told: &mut ReportBuffer,
) -> TrialAnswer
    requires { Agree meta.now tree.old bindings.old.installed }
    ensures { Agree meta.now tree.new bindings.new.installed }
{
    let answer = take(meta, tree, bindings, step);
    if let TrialAnswer::Ample = answer {
        Bound { tree, bindings }.tell(told);
    }
    answer
}

fn take(meta: &Meta, tree: &mut Tree, bindings: &mut Bindings, step: &BindingStep) -> TrialAnswer
    requires { Agree meta.now tree.old bindings.old.installed }
    ensures { Agree meta.now tree.new bindings.new.installed }
{
    match step {
        BindingStep::Bind {
            site,
            target,
            sources,
        } => bind(meta, tree, bindings, *site, *target, *sources),
        BindingStep::Write { object, number } => write(meta, tree, bindings, *object, *number),
        BindingStep::Group { object, numbers } => write_group(
            meta, tree, bindings, *object, *numbers,
        ),
    }
}

fn bind(
    meta: &Meta,
    tree: &mut Tree,
    bindings: &mut Bindings,
    site: usize,
    target: usize,
    sources: (usize, Option<usize>),
) -> TrialAnswer
    requires { Agree meta.now tree.old bindings.old.installed }
    ensures { Agree meta.now tree.new bindings.new.installed }
{
    let first = ObjectId::new(sources.0);
    let both = [first, ObjectId::new(sources.1.unwrap_or(0))];
    let sources = if sources.1.is_some() {
        &both[..]
    } else {
        &both[..1]
    };
    match bindings.bind(meta, tree, site, ObjectId::new(target), sources) {
        Ok(_) => TrialAnswer::Ample,
        Err(BindFault::Memory) => TrialAnswer::Memory,
        Err(_) => TrialAnswer::Other,
    }
}

fn write(
    meta: &Meta,
    tree: &mut Tree,
    bindings: &mut Bindings,
    object: usize,
    number: i32,
) -> TrialAnswer
    requires { Agree meta.now tree.old bindings.old.installed }
    ensures { Agree meta.now tree.new bindings.new.installed }
{
    let place = place_of(object, FIRST);
    match bindings.write(meta, tree, &place, Value::Int(number)) {
        Ok(_) => TrialAnswer::Ample,
        Err(WriteFault::Memory) => TrialAnswer::Memory,
        Err(WriteFault::BadType) => TrialAnswer::Other,
    }
}

fn write_group(
    meta: &Meta,
    tree: &mut Tree,
    bindings: &mut Bindings,
    object: usize,
    numbers: (i32, i32),
) -> TrialAnswer
    requires { Agree meta.now tree.old bindings.old.installed }
    ensures { Agree meta.now tree.new bindings.new.installed }
{
    let writes = [
        assignment(object, FIRST, numbers.0),
        assignment(object, SECOND, numbers.1),
    ];
    match bindings.write_group(meta, tree, &writes) {
        Ok(_) => TrialAnswer::Ample,
        Err(WriteFault::Memory) => TrialAnswer::Memory,
        Err(WriteFault::BadType) => TrialAnswer::Other,
    }
}

fn place_of(object: usize, property: usize) -> Place {
    Place {
        object: ObjectId::new(object),
        property,
    }
}

fn assignment(object: usize, property: usize, number: i32) -> Assignment {
    Assignment {
        place: place_of(object, property),
        value: Value::Int(number),
    }
}
