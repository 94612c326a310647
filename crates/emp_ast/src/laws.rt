//! What the definitions imply, and what they say of small models.
//!
//! No function here runs. Each states a law, or that the right point meets a definition and a wrong one does not.
ghost use Rattle.emp_ast.specs.Nodes.{NodesAreExpressions};
ghost use Rattle.emp_ast.specs.Defines.{DefinesIsSentence};
ghost use Rattle.emp_ast.specs.SameLaws.{SamePointsAreOne, GivenIsOne};

/// Nodes in postorder are those of the expression that they stand for, and the nodes of an expression are in postorder
/// and stand for it.
pub fn nodes_are_expressions()
    ensures { NodesAreExpressions }
{}

/// What is so of a point is so of each that is the same: values, bounds, equations met, given values, deviations, rivals,
/// solved blocks, multipliers, equilibria, bilevel points and rays.
pub fn same_points_are_one()
    ensures { SamePointsAreOne }
{}

/// An objective has one given value at a point.
pub fn given_is_one()
    ensures { GivenIsOne }
{}

/// The test of an equation that defines an objective passes exactly those of which the sentence is so.
pub fn defines_is_sentence()
    ensures { DefinesIsSentence }
{}
