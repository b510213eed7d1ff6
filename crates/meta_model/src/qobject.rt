//! The numbers of `QObject`'s members, which every class has first.

/// The number of `QObject` among the classes.
pub const QOBJECT: usize = 0;

/// The number of the signal `destroyed(QObject*)` in every class.
pub const DESTROYED: usize = 0;

/// The number of the signal `destroyed()` in every class.
pub const DESTROYED_ALONE: usize = 1;

/// The number of the signal `objectNameChanged(QString)` in every class: the last of those that the runtime emits.
pub const OBJECT_NAME_CHANGED: usize = 2;

/// The number of the slot `deleteLater()` in every class: the last of `QObject`'s methods.
pub const DELETE_LATER: usize = 3;

/// The number of the property `objectName` in every class.
pub const OBJECT_NAME: usize = 0;
