//! What follows from the definitions.

ghost use Rattle.delete_later.specs.Laws.{ScheduledOnce, EndedIsForgotten};

/// An object that is scheduled for deletion again changes nothing.
pub fn scheduled_once()
    ensures { ScheduledOnce }
{}

/// No connection leads from or to an object that has ended, and nothing waits for it.
pub fn ended_is_forgotten()
    ensures { EndedIsForgotten }
{}
