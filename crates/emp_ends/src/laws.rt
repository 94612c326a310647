//! That every search ends. The functions state laws, and have no code that runs.
ghost use Rattle.emp_ends.specs.Ends.{SearchesOpenFew, SearchesEnd};

/// A search opens fewer than `2 ^ (p + 1)` nodes, where p is the number of pairs, since no pair is split twice on a path.
pub fn searches_open_few()
    ensures { SearchesOpenFew }
{}

/// With as many units as so many nodes may take no search is out of units.
pub fn searches_end()
    ensures { SearchesEnd }
{}
