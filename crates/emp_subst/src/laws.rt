//! What the problem of a file keeps, stated for the layers above.
ghost use Rattle.emp_subst.specs.Keeps.{ProblemsKeep};

/// The variables that are left rise, own and dual variables are among them, the own variables of a block differ and so do the
/// equations of its rules, a variational inequality has a function for each own variable, and an equation has one rule in all
/// blocks.
pub fn problems_keep()
    ensures { ProblemsKeep }
{}
