ghost use Rattle.std.specs.Prelude.{◌≡◌, IfOk};

use sqlite_items::Items;
use std::alloc::{AllocError, Global};
use std::marker::Model;
use std::ops::Deref;
use std::rc::Rc;

/// A handle to a value that other handles may have too, and that nobody changes. The value goes with its last handle.
pub struct Shared<T> {
    value: Rc<T>,
}

impl<T: Drop> Drop for Shared<T> {
    fn drop(self) {
        let Shared { value: _ } = self;
    }
}

impl<T> Model for Shared<T> {
    ghost Value = { T };

    ghost coded = { T.code };

    ghost view = { λ shared. shared.value.value };
}

impl<T: Drop> Shared<T> {
    /// The first handle to this value, which is put on the heap. The error is that memory was refused.
    pub fn new(alloc: Global, value: T) -> Result<Shared<T>, AllocError>
        ensures { IfOk result (λ shared. shared ≡ value) }
    {
        let value = Rc::new(alloc, value)?;
        Ok(Shared { value })
    }

    /// One more handle to the same value, which takes no memory. The error is that there are more handles than can be
    /// counted.
    pub fn copy(&self) -> Result<Shared<T>, AllocError>
        ensures { IfOk result (λ copy. copy ≡ self.now) }
    {
        let value = self.value.clone()?;
        Ok(Shared { value })
    }
}

impl<T> Shared<T> {
    /// The value.
    pub fn get(&self) -> &T
        ensures { result.now ≡ self.now }
    {
        self.value.as_ref()
    }
}

impl<T> Deref for Shared<T> {
    type Target = T;

    ghost deref_gives = { λ shared value. value ≡ shared };

    fn deref(&self) -> &T
        ensures { result.now ≡ self.now }
    {
        self.get()
    }
}

/// One more handle to each of these values, in their order, in a list that has room for so many more. The error is that
/// memory was refused.
pub fn copy_all<T: Drop>(
    alloc: Global,
    values: &[Shared<T>],
    more: usize,
) -> Result<Items<Shared<T>>, AllocError>
    ensures { IfOk result (λ copies. copies ≡ values.now) }
{
    let mut copies = Vec::with_capacity(alloc, values.len().saturating_add(more))?;
    for value in values {
        let copy = value.copy()?;
        copies.push(copy)?;
    }
    Ok(Items::from_vec(copies))
}
