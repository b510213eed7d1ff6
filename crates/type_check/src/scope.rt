//! Where a body stands, and what it may do there.

ghost use Rattle.std.specs.Prelude.{◌≡◌, ◌↔◌, IsTrue, IfOk};
ghost use Rattle.std.specs.List.{AllZip};
ghost use Rattle.name_indexes.specs.LookUps.{LooksUp, FindsOnly};
ghost use Rattle.meta_model.specs.declared.object.Statement.TheViews.{out-Statement};
ghost use Rattle.type_check.specs.Bodies.{kind_of_root, kind_of_path, LeadsToMutable, IsGivenIn, AcceptsArguments, IsTypedSet, IsTypedCall, IsTypedDeletion, IsTypedStatement};

use crate::accepting::is_given;
use crate::flaws::{TypeFault, fault_in};
use crate::naming::spelled;
use basic_types::QType;
use expressions::Names;
use meta_model::{Meta, MetaPath, MetaRoot, Statement, ValueType};
use std::alloc::{AllocError, Global};
use syntax_trees::Expr;

/// Where a body stands: the program, the class that declares its slot, and the types of the slot's parameters.
#[derive(Clone, Copy)]
pub struct BodyScope<'m> {
    pub alloc: Global,
    pub meta: &'m Meta,
    pub class: usize,
    pub types: &'m [ValueType],
}

impl<'m> Names<MetaPath> for BodyScope<'m> {
    ghost use Rattle.type_check.specs.Accepting.{spelled_types};
    ghost use Rattle.type_check.specs.Bodies.{kind_of_path};

    ghost types = { λ scope path. spelled_types scope.meta.now (kind_of_path scope.class scope.types.now) path };

    fn kind(&self, path: &MetaPath) -> Result<Option<QType>, AllocError> {
        match self.kind_of(path) {
            Some(kind) => spelled(self.alloc, self.meta, kind),
            None => Ok(None),
        }
    }
}

impl<'m> BodyScope<'m> {
    /// Whether the statement is typed; of an `if`, whether its condition is. What is in it is looked at on its own.
    pub fn is_typed(&self, statement: &Statement) -> Result<bool, AllocError>
        ensures { IfOk result (λ answer. IsTrue answer
            ↔ IsTypedStatement self.now.meta.now self.now.class self.now.types.now (out-Statement statement.now)) }
    {
        match statement {
            Statement::Set(path, property, value) => self.may_set(path, *property, value),
            Statement::Emit(signal, given) => self.accepts(self.class, *signal, given.as_slice()),
            Statement::Call(path, method, given) => self.may_call(path, *method, given.as_slice()),
            Statement::If(condition, _, _) => self.is_given(ValueType::Bool, condition),
            Statement::Connect(_, _) | Statement::Disconnect(_) | Statement::Group(_) => Ok(true),
            Statement::Delete(path) => Ok(self.is_mutable(path)),
            Statement::Later(path) => Ok(self.is_mutable(path)),
        }
    }

    /// Why the statement isn't typed, which it isn't; of an `if`, why its condition isn't.
    pub fn fault(&self, statement: &Statement) -> Result<TypeFault, AllocError> {
        match statement {
            Statement::Set(path, property, value) => match self.kind_set(path, *property) {
                Some(kind) => self.fault_in(0, kind, value),
                None => Ok(TypeFault::Constant),
            },
            Statement::Emit(signal, given) => {
                self.argument_fault(self.class, *signal, given.as_slice())
            }
            Statement::Call(path, method, given) => match self.mutable(path) {
                Some(class) => self.argument_fault(class, *method, given.as_slice()),
                None => Ok(TypeFault::Constant),
            },
            Statement::If(condition, _, _) => self.fault_in(0, ValueType::Bool, condition),
            _ => Ok(TypeFault::Constant),
        }
    }

    /// The declared type of the property of what the path leads to, where that isn't const.
    fn kind_set(&self, path: &MetaPath, property: usize) -> Option<ValueType> {
        let class = self.mutable(path)?;
        let object = self.meta.object(class)?;
        let property = object.property(property)?;
        Some(property.kind)
    }

    /// Why the method, of the class of this number, doesn't accept the arguments, of which it takes as many.
    fn argument_fault(
        &self,
        class: usize,
        method: usize,
        given: &[Expr<MetaPath>],
    ) -> Result<TypeFault, AllocError> {
        let Some(method) = self.meta.method_at(class, method) else {
            return Ok(TypeFault::Unknown(0));
        };
        for (place, expression) in given.iter().enumerate() {
            if let Some(kind) = method.types.get(place) {
                if !self.is_given(*kind, expression)? {
                    return self.fault_in(place, *kind, expression);
                }
            }
        }
        Ok(TypeFault::Unknown(0))
    }

    /// Why something of this type may not be given the expression at this place.
    fn fault_in(
        &self,
        place: usize,
        wanted: ValueType,
        expression: &Expr<MetaPath>,
    ) -> Result<TypeFault, AllocError> {
        fault_in(self.alloc, self.meta, place, wanted, expression, self)
    }

    /// Whether the path isn't const and its property accepts the expression.
    fn may_set(
        &self,
        path: &MetaPath,
        property: usize,
        value: &Expr<MetaPath>,
    ) -> Result<bool, AllocError>
        ensures { IfOk result (λ answer. IsTrue answer
            ↔ IsTypedSet self.now.meta.now self.now.class self.now.types.now path.now property value.now) }
    {
        let Some(class) = self.mutable(path) else {
            return Ok(false);
        };
        let Some(object) = self.meta.object(class) else {
            return Ok(false);
        };
        match object.property(property) {
            Some(property) => self.is_given(property.kind, value),
            None => Ok(false),
        }
    }

    /// Whether the path isn't const and its method accepts the arguments.
    fn may_call(
        &self,
        path: &MetaPath,
        method: usize,
        given: &[Expr<MetaPath>],
    ) -> Result<bool, AllocError>
        ensures { IfOk result (λ answer. IsTrue answer
            ↔ IsTypedCall self.now.meta.now self.now.class self.now.types.now path.now method given.now) }
    {
        match self.mutable(path) {
            Some(class) => self.accepts(class, method, given),
            None => Ok(false),
        }
    }

    /// Whether the method, of the class of this number, has as many parameters and accepts the arguments.
    fn accepts(
        &self,
        class: usize,
        method: usize,
        given: &[Expr<MetaPath>],
    ) -> Result<bool, AllocError>
        ensures { IfOk result (λ answer. IsTrue answer
            ↔ AcceptsArguments self.now.meta.now self.now.class self.now.types.now class method given.now) }
    {
        match self.meta.method_at(class, method) {
            Some(method) => self.are_given(method.types.as_slice(), given),
            None => Ok(false),
        }
    }

    /// Whether there are as many expressions as types, and each may be given to something of its type.
    fn are_given(
        &self,
        declared: &[ValueType],
        given: &[Expr<MetaPath>],
    ) -> Result<bool, AllocError>
        ensures { IfOk result (λ answer. IsTrue answer
            ↔ AllZip (IsGivenIn self.now.meta.now self.now.class self.now.types.now) declared.now given.now) }
    {
        if declared.len() != given.len() {
            return Ok(false);
        }
        for (place, kind) in declared.iter().enumerate() {
            if !self.is_given(*kind, &given[place])? {
                return Ok(false);
            }
        }
        Ok(true)
    }

    /// Whether something of this type may be given the expression.
    fn is_given(&self, declared: ValueType, expression: &Expr<MetaPath>) -> Result<bool, AllocError>
        ensures { IfOk result (λ answer. IsTrue answer
            ↔ IsGivenIn self.now.meta.now self.now.class self.now.types.now declared expression.now) }
    {
        is_given(self.alloc, self.meta, declared, expression, self)
    }

    /// Whether the path leads to objects and isn't const.
    fn is_mutable(&self, path: &MetaPath) -> bool
        ensures { IsTrue result ↔ IsTypedDeletion self.now.class self.now.types.now path.now }
    {
        match self.mutable(path) {
            Some(_) => true,
            None => false,
        }
    }

    /// The class that the path leads to, where it leads to objects and isn't const.
    fn mutable(&self, path: &MetaPath) -> Option<usize>
        ensures value { LooksUp (LeadsToMutable self.now.class self.now.types.now path.now) result }
        ensures only { FindsOnly (LeadsToMutable self.now.class self.now.types.now path.now) result }
    {
        match self.kind_of(path) {
            Some(ValueType::Reference(class, false)) => Some(class),
            _ => None,
        }
    }

    /// The declared type of what the path leads to.
    fn kind_of(&self, path: &MetaPath) -> Option<ValueType>
        ensures { result ≡ kind_of_path self.now.class self.now.types.now path.now }
    {
        match path.steps.as_slice().last() {
            Some(step) => Some(step.kind),
            None => self.kind_of_root(path.root),
        }
    }

    /// The declared type of what a path begins with.
    fn kind_of_root(&self, root: MetaRoot) -> Option<ValueType>
        ensures { result ≡ kind_of_root self.now.class self.now.types.now root }
    {
        match root {
            MetaRoot::This => Some(ValueType::Reference(self.class, false)),
            MetaRoot::Parameter(place) => self.types.get(place).copied(),
        }
    }
}
