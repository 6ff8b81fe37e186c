//! Laws of calls that a stop interrupts, whichever disk they go to.
ghost use Rattle.relay_disk.specs.Device.{WritesLeaveTheRest, CutsLeaveAFront};

/// A write leaves what is before its range and after it.
pub fn writes_leave_the_rest()
    ensures { WritesLeaveTheRest }
{}

/// A cut leaves a prefix.
pub fn cuts_leave_a_front()
    ensures { CutsLeaveAFront }
{}
