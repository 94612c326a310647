//! What is so of complementarity models.
//!
//! No function here runs.
ghost use Rattle.emp_mcp.specs.Block.{BlocksAreComplementary};
ghost use Rattle.emp_mcp.specs.Laws.{TargetsKeepPoints, TargetsAreKept, UnbrokenAreMatches};

/// A variational inequality without constraints is solved exactly at its complementary points.
pub fn blocks_are_complementary()
    ensures { BlocksAreComplementary }
{}

/// The file in the place of a complementarity model is solved exactly by what shows complementary points.
pub fn targets_keep_points()
    ensures { TargetsKeepPoints }
{}

/// That file keeps the rules of ownership.
pub fn targets_are_kept()
    ensures { TargetsAreKept }
{}

/// Matches that break no rule are those of a complementarity model.
pub fn unbroken_are_matches()
    ensures { UnbrokenAreMatches }
{}
