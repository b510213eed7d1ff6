//! What the paths and expressions of a body give.

ghost use Rattle.std.specs.Prelude.{◌≡◌, Some};
ghost use Rattle.std.specs.Option.{option_copied, option_map};
ghost use Rattle.expressions.specs.Evaluation.{Evaluates, EvaluatesAll};
ghost use Rattle.run_context.specs.code.Coded.{Finds, FindsTruth};
ghost use Rattle.machine_rules.specs.Paths.{root_value, step_value, steps_value};
ghost use Rattle.run_context.specs.code.Scope.{objects_in, path_in, value_in, values_in};
ghost use Rattle.object_tree.specs.Objects.{stored};
ghost use Rattle.object_tree.specs.Seen.{seen, seen_reference};
ghost use Rattle.prop_bindings.specs.Plans.{assigned};

use basic_types::{Arguments, ObjectId, Value};
use expressions::{self, EvalFault};
use indexmap::IndexMap;
use meta_model::{MetaPath, MetaRoot, Step};
use object_tree::Tree;
use prop_bindings::{Place, value_ahead};
use std::alloc::Global;
use syntax_trees::Expr;

/// What a body reads: the objects, the object whose body it is, and the arguments of its call.
#[derive(Clone, Copy)]
pub struct Scope<'w> {
    pub alloc: Global,
    pub objects: &'w Tree,
    /// Within a group: the values that its sets have written so far, by the numbers of their properties.
    pub written: Option<&'w IndexMap<(usize, usize), Value>>,
    pub this: ObjectId,
    pub arguments: &'w [Value],
}

impl<'w> expressions::World<MetaPath> for Scope<'w> {
    ghost use Rattle.run_context.specs.code.Scope.{path_in};

    ghost read = { λ scope path. path_in scope path };

    #[inline(always)]
    fn value(&self, path: &MetaPath) -> Result<Value, EvalFault> {
        let begun = self.root(path.root)?;
        self.from(self.seen(begun), path.steps.as_slice())
    }
}

impl<'w> Scope<'w> {
    /// What a set of a group reads, where those before it have written these values.
    pub fn in_group(
        alloc: Global,
        objects: &'w Tree,
        written: &'w IndexMap<(usize, usize), Value>,
        this: ObjectId,
        arguments: &'w [Value],
    ) -> Scope<'w>
        ensures objects { objects_in result ≡ assigned written.now.entries objects.now }
        ensures this { result.this ≡ this }
        ensures arguments { result.arguments.now ≡ arguments.now }
    {
        let written = Some(written);
        Scope {
            alloc,
            objects,
            written,
            this,
            arguments,
        }
    }

    /// The value of an expression; `BadType` where it has none. Most are a path alone, which is followed at once.
    #[inline(always)]
    pub fn value_of(&self, expression: &Expr<MetaPath>) -> Result<Value, EvalFault>
        ensures { Evaluates (value_in self.now expression.now) result }
    {
        match expression {
            Expr::Path(path) => expressions::World::value(self, path),
            _ => expressions::eval(self.alloc, expression, self),
        }
    }

    /// The values of expressions; `BadType` where one of them has none.
    pub fn values_of(&self, expressions: &[Expr<MetaPath>]) -> Result<Arguments, EvalFault>
        ensures { EvaluatesAll (values_in self.now expressions.now) result }
    {
        expressions::eval_all(self.alloc, expressions, self)
    }

    /// The object that a path leads to, or `None` where it leads to null; `BadType` where it leads to neither.
    #[inline(always)]
    pub fn object_at(&self, path: &MetaPath) -> Result<Option<ObjectId>, EvalFault>
        ensures { Finds (path_in self.now path.now) result }
    {
        if path.steps.is_empty() {
            self.object_at_root(path.root)
        } else {
            self.object_along(path)
        }
    }

    /// The same, by the value that the path leads to.
    #[inline(never)]
    fn object_along(&self, path: &MetaPath) -> Result<Option<ObjectId>, EvalFault>
        ensures { Finds (path_in self.now path.now) result }
    {
        match expressions::World::value(self, path)? {
            Value::Ref(Some(object)) => Ok(Some(object)),
            Value::Ref(None) => Ok(None),
            _ => Err(EvalFault::BadType),
        }
    }

    /// The same, of a path with no steps.
    #[inline(always)]
    fn object_at_root(&self, root: MetaRoot) -> Result<Option<ObjectId>, EvalFault>
        ensures { Finds (option_map (seen (objects_in self.now)) (root_value self.now.this self.now.arguments.now root)) result }
    {
        let reference = match root {
            MetaRoot::This => Some(self.this),
            MetaRoot::Parameter(place) => reference_in(self.arguments.get(place))?,
        };
        Ok(self.seen_reference(reference))
    }

    /// The truth value of a condition; `BadType` where it has none.
    pub fn truth_of(&self, condition: &Expr<MetaPath>) -> Result<bool, EvalFault>
        ensures { FindsTruth (value_in self.now condition.now) result }
    {
        match self.value_of(condition)? {
            Value::Bool(truth) => Ok(truth),
            _ => Err(EvalFault::BadType),
        }
    }

    /// What properties of this value lead to, each one's of what the one before led to; most paths have none.
    #[inline(always)]
    fn from(&self, begun: Value, steps: &[Step]) -> Result<Value, EvalFault>
        ensures { Evaluates (steps_value (objects_in self.now) steps.now (Some begun)) result }
    {
        if steps.is_empty() {
            return Ok(begun);
        }
        self.along(begun, steps)
    }

    /// The same, where there are some.
    #[inline(never)]
    fn along(&self, begun: Value, steps: &[Step]) -> Result<Value, EvalFault>
        ensures { Evaluates (steps_value (objects_in self.now) steps.now (Some begun)) result }
    {
        let mut found = begun;
        for step in steps {
            found = self.step(step, &found)?;
        }
        Ok(found)
    }

    /// Where a path begins.
    #[inline(always)]
    fn root(&self, root: MetaRoot) -> Result<Value, EvalFault>
        ensures { Evaluates (root_value self.now.this self.now.arguments.now root) result }
    {
        match root {
            MetaRoot::This => Ok(Value::Ref(Some(self.this))),
            MetaRoot::Parameter(place) => copy_found(self.arguments.get(place)),
        }
    }

    /// The property of what a path has led to so far, as it reads.
    fn step(&self, step: &Step, from: &Value) -> Result<Value, EvalFault>
        ensures { Evaluates (step_value (objects_in self.now) step.now from.now) result }
    {
        match from {
            Value::Ref(None) => {
                let value = step.kind.default_value(self.alloc)?;
                Ok(value)
            }
            Value::Ref(Some(object)) => {
                let found = copy_found(self.stored(*object, step.property))?;
                Ok(self.seen(found))
            }
            _ => Err(EvalFault::BadType),
        }
    }

    /// A value as it reads: a reference to a dead object reads as null.
    fn seen(&self, value: Value) -> Value
        ensures { result ≡ seen (objects_in self.now) value }
    {
        self.objects.seen(value)
    }

    /// What a reference refers to as it reads.
    fn seen_reference(&self, reference: Option<ObjectId>) -> Option<ObjectId>
        ensures { result ≡ seen_reference (objects_in self.now) reference }
    {
        self.objects.seen_reference(reference)
    }

    /// The value of a living object's property.
    fn stored(&self, object: ObjectId, property: usize) -> Option<&'w Value>
        ensures { option_copied result ≡ stored (objects_in self.now) object property }
    {
        match self.written {
            Some(values) => {
                let latest = values.len().saturating_sub(1);
                value_ahead(self.objects, values, latest, &Place { object, property })
            }
            None => self.objects.value(object, property),
        }
    }
}

/// A copy of a value that was found; `BadType` where none was.
fn copy_found(found: Option<&Value>) -> Result<Value, EvalFault>
    ensures { Evaluates (option_copied found.entry) result }
{
    match found {
        Some(value) => {
            let copy = value.copy()?;
            Ok(copy)
        }
        None => Err(EvalFault::BadType),
    }
}

/// The reference that was found; `BadType` where a value is none, or none was found.
fn reference_in(found: Option<&Value>) -> Result<Option<ObjectId>, EvalFault>
    ensures { Finds (option_copied found.entry) result }
{
    match found {
        Some(Value::Ref(reference)) => Ok(*reference),
        _ => Err(EvalFault::BadType),
    }
}
