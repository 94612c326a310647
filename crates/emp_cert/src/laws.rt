//! The law of certificates: what they show is so. The functions state laws, and have no code that runs.
ghost use Rattle.emp_cert.specs.Laws.{TreesShow, ListsAreTrees, RayGoesOn, ShownHolds};

/// A tree that shows none leaves no row point, and one that shows best for a point bounds the objective at every row point.
pub fn trees_show()
    ensures { TreesShow }
{}

/// A list of nodes that is one whole tree is the preorder of a tree, and each tree's preorder is such a list.
pub fn lists_are_trees()
    ensures { ListsAreTrees }
{}

/// A row ray gives a row point at every whole step, and the objective falls from each to each later one.
pub fn ray_goes_on()
    ensures { RayGoesOn }
{}

/// What a certificate shows of a row system is so: its point is a row point, or none is, or none is better, or a ray goes on.
pub fn shown_holds()
    ensures { ShownHolds }
{}
