//! What the answer of the test says, stated for the layers above.
ghost use Rattle.emp_share.specs.Laws.{PassingIsConvex, PassingTells, FaultTells};

/// Where all agents pass, the game of the problem is convex.
pub fn passing_is_convex()
    ensures { PassingIsConvex }
{}

/// And each agent of the file is convex.
pub fn passing_tells()
    ensures { PassingTells }
{}

/// A fault names an agent of the file and how many of its counted variables it is convex in.
pub fn fault_tells()
    ensures { FaultTells }
{}
