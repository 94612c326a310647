//! Worked searches, trees and rays. The functions state laws, and have no code that runs.
ghost use Rattle.emp_search.specs.Example.{ExampleRays, ExampleSearches, ExampleTrees};

/// Row systems with the order of their nodes, the work that they take, the pivot that is wide, and what they end with.
pub fn example_searches()
    ensures { ExampleSearches }
{}

/// The tree of one of them, and trees that show nothing of it.
pub fn example_trees()
    ensures { ExampleTrees }
{}

/// A ray of one of them, and steps that are none.
pub fn example_rays()
    ensures { ExampleRays }
{}
