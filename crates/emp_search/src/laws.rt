//! What the search shows. The functions state laws, and have no code that runs.
ghost use Rattle.emp_search.specs.Shown.{SearchesFromShow, SearchesShow};

/// What the search ends with is so: its tree leaves no row point or bounds the objective by the incumbent, which is a row
/// point, and so is the point that it finds; a ray that it finds is one.
pub fn searches_show()
    ensures { SearchesShow }
{}

/// The same of a search on a budget of which others took units, after some nodes.
pub fn searches_from_show()
    ensures { SearchesFromShow }
{}
