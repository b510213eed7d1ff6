//! Laws of writes and binds, and of objects and bindings that agree.

ghost use Rattle.prop_bindings.specs.Laws.{WrittenOnce, InstalledOnce, LeftAgree, UnboundAgree, CreatedAgree, AdoptedAgree, BlockedAgree, ScheduledAgree};

/// What a write makes of bindings and objects that agree is one thing.
pub fn written_once()
    ensures { WrittenOnce }
{}

/// What a bind makes of bindings and objects that agree is one thing.
pub fn installed_once()
    ensures { InstalledOnce }
{}

/// What is left of bindings and objects that agree, once an object is dead, agrees.
pub fn left_agree()
    ensures { LeftAgree }
{}

/// Where nothing is bound, objects whose values are of their types agree with that.
pub fn unbound_agree()
    ensures { UnboundAgree }
{}

/// What agrees goes on to where an object is created.
pub fn created_agree()
    ensures { CreatedAgree }
{}

/// What agrees goes on to where an object gets a parent.
pub fn adopted_agree()
    ensures { AdoptedAgree }
{}

/// What agrees goes on to where an object's signals are blocked, or no longer.
pub fn blocked_agree()
    ensures { BlockedAgree }
{}

/// What agrees goes on to where an object's deletion is scheduled.
pub fn scheduled_agree()
    ensures { ScheduledAgree }
{}
