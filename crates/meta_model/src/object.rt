ghost use Rattle.std.specs.Prelude.{◌≡◌, ◌<◌, length, slice_get, option_copied, IfOk, OnSome};
ghost use Rattle.meta_model.specs.Values.{default};

use crate::effects::MetaEffects;
use crate::slot_body::SlotBody;
use basic_types::{Kind, Name, QType, Shared, Sig, Text, Value};
use sqlite_items::Items;
use std::alloc::{AllocError, Global};
use syntax_trees::{ConnectionType, Expr};

/// The type of a property or a parameter, its class replaced by its number.
#[derive(Clone, Copy, Debug, PartialEq, Eq)]
pub enum ValueType {
    /// `int`
    Int,
    /// `bool`
    Bool,
    /// `QString`
    Text,
    /// `C*`, or `const C*` where the second part is true: the class's number.
    Reference(usize, bool),
}

impl ValueType {
    /// What a property of this type is at first where no literal is given, and what it reads as where a path led to null:
    /// 0, false, `""` or null. Its error is that memory was refused.
    pub fn default_value(self, alloc: Global) -> Result<Value, AllocError>
        ensures { IfOk result (λ value. value ≡ default self) }
    {
        match self {
            ValueType::Int => Ok(Value::Int(0)),
            ValueType::Bool => Ok(Value::Bool(false)),
            ValueType::Text => {
                let text = Text::empty(alloc)?;
                Ok(Value::Text(text))
            }
            ValueType::Reference(_, _) => Ok(Value::Ref(None)),
        }
    }
}

/// Where a path begins.
#[derive(Clone, Copy, Debug, PartialEq, Eq)]
pub enum MetaRoot {
    /// `this`
    This,
    /// A parameter, by its place from 0.
    Parameter(usize),
}

/// A property that leads on from an object in a path.
#[derive(Clone, Copy, Debug, PartialEq, Eq)]
pub struct Step {
    /// Its number, in the class that the path so far is declared to lead to and in every class below that.
    pub property: usize,
    /// Its declared type, which says what it reads as where the path so far leads to null.
    pub kind: ValueType,
}

/// A path whose names are resolved.
pub struct MetaPath {
    pub root: MetaRoot,
    pub steps: Items<Step>,
}

impl Drop for MetaPath {
    fn drop(self) {
        let MetaPath { root: _, steps: _ } = self;
    }
}

/// The two ends of a connection, their names resolved; `destroyed()` has the number 1 here.
pub struct MetaEndpoints {
    /// The sender's path.
    pub sender: MetaPath,
    /// The signal, in the class that the sender's path is declared to lead to and in every class below that.
    pub signal: usize,
    /// The receiver's path.
    pub receiver: MetaPath,
    /// The slot, native or signal, in the class that the receiver's path is declared to lead to and in every class below
    /// that.
    pub method: usize,
}

impl Drop for MetaEndpoints {
    fn drop(self) {
        let MetaEndpoints {
            sender: _,
            signal: _,
            receiver: _,
            method: _,
        } = self;
    }
}

/// A statement whose names are resolved.
#[derive(Drop)]
pub enum Statement {
    /// `set path.p = e;`: the object's path, the property's number and the new value.
    Set(MetaPath, usize, Expr<MetaPath>),
    /// `emit s(e, ..);`: the signal's number in the body's class, and the arguments.
    Emit(usize, Items<Expr<MetaPath>>),
    /// `call path.m(e, ..);`: the object's path, the method's number and the arguments.
    Call(MetaPath, usize, Items<Expr<MetaPath>>),
    /// `if (e) { .. } else { .. }`
    If(Expr<MetaPath>, Items<Statement>, Items<Statement>),
    /// `connect path, s(T, ..), path, m(T, ..), kind, unique, single;`: what is connected, and how.
    Connect(MetaEndpoints, ConnectionType),
    /// `disconnect path, s(T, ..), path, m(T, ..);`: what is no longer connected.
    Disconnect(MetaEndpoints),
    /// `delete path;`: the path of the object that is destroyed.
    Delete(MetaPath),
    /// `later path;`: the path of the object whose deletion is scheduled.
    Later(MetaPath),
    /// `group { set path.p = e; .. }`: its sets, each a `Set`.
    Group(Items<Statement>),
}

/// What a method does.
#[derive(Drop)]
pub enum Work {
    /// A signal is emitted.
    Signal,
    /// A slot has a body.
    Slot(SlotBody),
    /// A native's work stands outside the program, which declares what it may read and do.
    Native(MetaEffects),
}

/// A method of a class.
pub struct MetaMethod {
    /// Its name and its parameters' types, as declared.
    pub sig: Shared<Sig>,
    /// Its parameters' types, by the numbers of their classes.
    pub types: Items<ValueType>,
    /// What a call of it does.
    pub work: Work,
}

impl Drop for MetaMethod {
    fn drop(self) {
        let MetaMethod {
            sig: _,
            types: _,
            work: _,
        } = self;
    }
}

/// A property of a class.
pub struct MetaProperty {
    /// Its name.
    pub name: Name,
    /// Its type, as declared.
    pub declared: QType,
    /// Its type, by the number of its class.
    pub kind: ValueType,
    /// The value that it has at first, which may be of another type where a literal is given, and is no object.
    pub initial: Value,
    /// The number of the signal that is emitted when its value changes, if it has one.
    pub notify: Option<usize>,
}

impl Drop for MetaProperty {
    fn drop(self) {
        let MetaProperty {
            name: _,
            declared: _,
            kind: _,
            initial: _,
            notify: _,
        } = self;
    }
}

/// A class. A method's or a property's number is its place here, from 0: the base's members come first, then the
/// class's own, signals before slots and natives, each as declared. A class shares its base's members with it.
pub struct MetaObject {
    /// The class's name.
    pub name: Name,
    /// The number of its base; only `QObject`, which has the number 0, has none.
    pub base: Option<usize>,
    /// The base's methods, then its own signals, then its own slots and natives.
    pub methods: Items<Shared<MetaMethod>>,
    /// The base's properties, then its own.
    pub properties: Items<Shared<MetaProperty>>,
}

impl Drop for MetaObject {
    fn drop(self) {
        let MetaObject {
            name: _,
            base: _,
            methods: _,
            properties: _,
        } = self;
    }
}

impl MetaObject {
    /// The method of this number, or `None` past the last one.
    pub fn method(&self, number: usize) -> Option<&MetaMethod>
        ensures value { option_copied result ≡ slice_get self.now.methods number }
        ensures within { OnSome result (number < length self.now.methods) }
    {
        match self.methods.get(number) {
            Some(method) => Some(method.get()),
            None => None,
        }
    }

    /// The property of this number, or `None` past the last one.
    pub fn property(&self, number: usize) -> Option<&MetaProperty>
        ensures value { option_copied result ≡ slice_get self.now.properties number }
        ensures within { OnSome result (number < length self.now.properties) }
    {
        match self.properties.get(number) {
            Some(property) => Some(property.get()),
            None => None,
        }
    }
}

/// A wire, by the numbers of its classes and of their methods; `destroyed()` has the number 1 here.
pub struct MetaWire {
    /// The class of the sender.
    pub sender: usize,
    /// The signal, in the sender's class.
    pub signal: usize,
    /// The class of the receiver.
    pub receiver: usize,
    /// The slot, native or signal, in the receiver's class.
    pub method: usize,
    /// How the connection reaches its receiver.
    pub kind: Kind,
}

impl Drop for MetaWire {
    fn drop(self) {
        let MetaWire {
            sender: _,
            signal: _,
            receiver: _,
            method: _,
            kind: _,
        } = self;
    }
}

/// A declaration of which class's objects may be parents of which class's, by the numbers of the two.
#[derive(Clone, Copy, Debug, PartialEq, Eq)]
pub struct MetaOwns {
    /// The class of the parent.
    pub parent: usize,
    /// The class of the child.
    pub child: usize,
}
