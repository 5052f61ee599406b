//! Laws: functions with nothing to do, whose contracts hold of all bodies.

ghost use Rattle.walrus_handler_laws.specs.Handlers.{TreesTell};
ghost use Rattle.walrus_handler_laws.specs.Retyping.{HandlersStand};

/// What stands as a tree beside some types of handlers stands so beside others, once each handler's sequence has its type among these.
pub fn handlers_stand()
    ensures { HandlersStand }
{}

/// In a tree each sequence is held once, by one instruction: it is told as the handler that it is there, if it is one.
pub fn trees_tell()
    ensures { TreesTell }
{}
