//! Bad runs as lists of steps, and the endless runs that they stand for: a stem that reaches a clash, or a stem and a
//! loop that, repeated without end, is just and leaves a process trying for ever.
#![tactic(auto)]

ghost use Rattle.lasso.specs.Claims.{ClashRunReachesClash, LockoutLeavesTrying, BadRunBreaksLock};

/// From a clash run, a run that reaches a clash.
pub fn clash_run_reaches_clash()
    ensures { ClashRunReachesClash }
{}

/// From a lockout, a just run that leaves that process trying for ever.
pub fn lockout_leaves_trying()
    ensures { LockoutLeavesTrying }
{}

/// A system with a bad run is no correct lock.
pub fn bad_run_breaks_lock()
    ensures { BadRunBreaksLock }
{}
