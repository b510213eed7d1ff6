//! For which objects items wait, so that they all go at once.

ghost use Rattle.std.specs.Prelude.{◌≡◌, ◌↔◌, ◌+◌, ◌-◌, [], None, true, length, nat_lt, IsTrue, OnOk, OnErr};
ghost use Rattle.event_loops.specs.code.Marks.{mark_of, since_of, waits, WaitAlike, KeepsWaiting, Notes, Forgets};
ghost use Rattle.event_loops.specs.code.Sure.{is_told};
ghost use Rattle.event_loops.specs.code.Counts.{waiting_of, CountAlike, CountsFewer, CountsLess, CountsMore, CountsNone, KeepsCount};

use crate::item::Posted;
use basic_types::{LoopId, ObjectId};
use indexmap::IndexMap;
use std::alloc::{AllocError, Global};

/// Since when items wait for an object, and how many.
#[derive(Clone, Copy)]
pub struct WaitMark {
    /// How many items had been posted before the first that may wait.
    pub since: u64,
    /// The loop to which the last one was posted, or moved with its object.
    pub home: usize,
    /// How many items wait, or more than that where a post ran out of memory.
    pub waiting: u64,
}

impl WaitMark {
    /// The mark of an object for which the next item will be posted to this loop, where so many were posted.
    fn new(home: LoopId, posted: u64) -> WaitMark
        ensures since { result.since ≡ posted }
        ensures waiting { result.waiting ≡ 1 }
    {
        WaitMark {
            since: posted,
            home: home.number(),
            waiting: 1,
        }
    }

    /// One item more waits, in this loop. The error, with which nothing changes, is that a `u64` can't say how many.
    #[inline(always)]
    fn add(&mut self, home: LoopId) -> Result<(), AllocError>
        ensures since { self.new.since ≡ self.old.since }
        ensures ok { OnOk result (self.new.waiting ≡ self.old.waiting + 1) }
        ensures err { OnErr result (self.new.waiting ≡ self.old.waiting) }
    {
        let Some(waiting) = self.waiting.checked_add(1) else {
            return Err(AllocError);
        };
        self.waiting = waiting;
        self.home = home.number();
        Ok(())
    }

    /// One item less waits.
    #[inline(always)]
    fn lessen(&mut self)
        ensures since { self.new.since ≡ self.old.since }
        ensures waiting { self.new.waiting ≡ self.old.waiting - 1 }
    {
        self.waiting = self.waiting.saturating_sub(1);
    }

    /// The items wait in this loop.
    fn set_home(&mut self, home: LoopId)
        ensures since { self.new.since ≡ self.old.since }
        ensures waiting { self.new.waiting ≡ self.old.waiting }
    {
        self.home = home.number();
    }
}

/// The marks of the objects for which items may wait. An item for an object that has no mark, or that was posted before
/// the mark was made, is stale: it is still in a ring, but waits no more.
#[derive(Drop)]
pub struct Marks {
    /// By the object's number: those that live and for which something was posted.
    pub by_object: IndexMap<usize, WaitMark>,
    /// The number of the last item that may be stale: one with a higher number waits.
    pub last_stale: u64,
}

impl Marks {
    pub fn new(alloc: Global) -> Marks
        ensures unmarked { result.by_object.entries ≡ [] }
        ensures stale { result.last_stale ≡ 0 }
    {
        Marks {
            by_object: IndexMap::new(alloc),
            last_stale: 0,
        }
    }

    /// The mark of the object of this number, if it has one.
    #[inline(always)]
    fn mark(&self, number: usize) -> Option<WaitMark>
        ensures { result ≡ mark_of self.now number }
    {
        match self.by_object.get(&number) {
            None => None,
            Some(mark) => Some(*mark),
        }
    }

    /// Whether an item waits. For most a comparison tells it, and the mark needn't be looked up.
    #[inline(always)]
    pub fn waits(&self, posted: &Posted) -> bool
        requires { is_told self.now posted.now ≡ true }
        ensures { result ≡ waits (since_of self.now) posted.now }
    {
        posted.number > self.last_stale || self.has_mark(posted)
    }

    /// Whether an item's object has a mark that lets it wait.
    fn has_mark(&self, posted: &Posted) -> bool
        ensures { result ≡ waits (since_of self.now) posted.now }
    {
        match self.mark(posted.item.object().number()) {
            None => false,
            Some(mark) => mark.since < posted.number,
        }
    }

    /// Marks an object for which the next item will be posted to this loop, where so many were posted. Without memory
    /// nothing changes.
    #[inline(always)]
    pub fn note(&mut self, object: ObjectId, home: LoopId, posted: u64) -> Result<(), AllocError>
        ensures ok { OnOk result
            (Notes object posted (since_of self.old) (since_of self.new)) }
        ensures counts { OnOk result (CountsMore object self.old self.new) }
        ensures err { OnErr result (WaitAlike (since_of self.old) (since_of self.new)) }
        ensures err_counts { OnErr result (CountAlike self.old self.new) }
        ensures stale { self.new.last_stale ≡ self.old.last_stale }
    {
        let number = object.number();
        if let Some(mark) = self.by_object.get_mut(&number) {
            return mark.add(home);
        }
        let mark = WaitMark::new(home, posted);
        self.by_object.insert(number, mark)?;
        Ok(())
    }

    /// Whether no object has a mark: then nothing waits.
    pub fn is_empty(&self) -> bool
        ensures { IsTrue result ↔ (length self.now.by_object.entries ≡ 0) }
    {
        self.by_object.is_empty()
    }

    /// Whether items wait for the object of this number.
    pub fn awaits(&self, number: usize) -> bool
        ensures { result ≡ nat_lt 0 (waiting_of self.now number) }
    {
        match self.mark(number) {
            None => false,
            Some(mark) => mark.waiting > 0,
        }
    }

    /// One item less waits for the object of the one that was taken, if one was.
    #[inline(always)]
    pub fn count_taken(&mut self, taken: &Option<Posted>)
        ensures alike { WaitAlike (since_of self.old) (since_of self.new) }
        ensures counts { CountsLess taken.now self.old self.new }
        ensures stale { self.new.last_stale ≡ self.old.last_stale }
    {
        match taken {
            None => {}
            Some(posted) => self.count_less(posted.item.object()),
        }
    }

    /// One item less waits for an object.
    #[inline(always)]
    fn count_less(&mut self, object: ObjectId)
        ensures kept { KeepsWaiting object (since_of self.old) (since_of self.new) }
        ensures counts { CountsFewer object self.old self.new }
        ensures stale { self.new.last_stale ≡ self.old.last_stale }
    {
        match self.by_object.get_mut(&object.number()) {
            None => {}
            Some(mark) => mark.lessen(),
        }
    }

    /// The items that wait for the objects of these numbers do so in this loop.
    pub fn rehome(&mut self, numbers: &[usize], home: LoopId)
        ensures alike { WaitAlike (since_of self.old) (since_of self.new) }
        ensures counts { CountAlike self.old self.new }
        ensures stale { self.new.last_stale ≡ self.old.last_stale }
    {
        for number in numbers {
            self.set_home(*number, home);
        }
    }

    /// The last item for the object of this number waits in this loop, if one does.
    fn set_home(&mut self, number: usize, home: LoopId)
        ensures kept { KeepsWaiting number (since_of self.old) (since_of self.new) }
        ensures counts { KeepsCount number self.old self.new }
        ensures stale { self.new.last_stale ≡ self.old.last_stale }
    {
        match self.by_object.get_mut(&number) {
            None => {}
            Some(mark) => mark.set_home(home),
        }
    }

    /// Takes an object's mark off, so that no item waits for it, and gives the loop to which the last one was posted.
    #[inline(always)]
    pub fn forget(&mut self, object: ObjectId) -> Option<usize>
        ensures forgets { Forgets object (since_of self.old) (since_of self.new) }
        ensures counts { CountsNone object self.old self.new }
        ensures none { result ≡ None → since_of self.old object ≡ None }
        ensures stale { self.new.last_stale ≡ self.old.last_stale }
    {
        match self.by_object.swap_remove(&object.number()) {
            Some(mark) => Some(mark.home),
            None => None,
        }
    }
}
