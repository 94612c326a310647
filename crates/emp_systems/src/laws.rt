//! The laws of affine systems, of short steps and of one chooser, stated for the layers above.
ghost use Rattle.emp_systems.specs.Blocks.{WeightsAreShared};
ghost use Rattle.emp_systems.specs.Systems.{MetOrRefuted, RefutedNowhereMet};
ghost use Rattle.emp_systems.specs.Own.{OwnLeastHasMultipliers, OwnMultipliersMakeLeast, OwnRulesApart, OwnRulesTogether};
ghost use Rattle.emp_systems.specs.Same.{SameHaveSameValues};
ghost use Rattle.emp_systems.specs.Steps.{ShortStepsFall, StepsKeep, LiesAboveTangent, LeastWhereLevel};
ghost use Rattle.emp_systems.specs.Lagrange.{SolvedHasMultipliers, MultipliersSolve, MultipliersHaveRows, RowsHaveMultipliers};
ghost use Rattle.emp_systems.specs.Lagrangian.{RulesApart, RulesTogether, SquareOfLagrangian, LeastLeftIsLeast};
ghost use Rattle.emp_systems.specs.Multipliers.{LeastHasMultipliers, MultipliersMakeLeast};

/// Any list of quantities has a point that meets it, or factors that refute it.
pub fn met_or_refuted()
    ensures { MetOrRefuted }
{}

/// No list of quantities has both.
pub fn refuted_nowhere_met()
    ensures { RefutedNowhereMet }
{}

/// Every short enough step along which the gradient falls lowers the value, and keeps above 0 what is above 0.
pub fn short_steps_fall()
    ensures { ShortStepsFall }
{}

/// A quantity of its kind at a point and along a step is of its kind after each step.
pub fn steps_keep()
    ensures { StepsKeep }
{}

/// A quadratic whose square is not negative along the way lies above its tangent.
pub fn lies_above_tangent()
    ensures { LiesAboveTangent }
{}

/// A point towards which no such way falls is least.
pub fn least_where_level()
    ensures { LeastWhereLevel }
{}

/// A least point has multipliers.
pub fn least_has_multipliers()
    ensures { LeastHasMultipliers }
{}

/// A point with multipliers is least where the quadratic is convex.
pub fn multipliers_make_least()
    ensures { MultipliersMakeLeast }
{}

/// Multipliers of rules and a box are multipliers of the rules, and of the box for what they leave.
pub fn rules_apart()
    ensures { RulesApart }
{}

/// Multipliers of the rules, with multipliers of the box for what they leave, are multipliers of both.
pub fn rules_together()
    ensures { RulesTogether }
{}

/// The square of what is left is that of the quadratic, times the weight.
pub fn square_of_lagrangian()
    ensures { SquareOfLagrangian }
{}

/// A point that is least for what is left is least.
pub fn least_left_is_least()
    ensures { LeastLeftIsLeast }
{}

/// A point that is least in its own coordinates has multipliers there.
pub fn own_least_has_multipliers()
    ensures { OwnLeastHasMultipliers }
{}

/// A point with multipliers in its own coordinates is least there, where the quadratic is convex.
pub fn own_multipliers_make_least()
    ensures { OwnMultipliersMakeLeast }
{}

/// Values do not depend on the numbers by which a point is given.
pub fn same_have_same_values()
    ensures { SameHaveSameValues }
{}

/// Blocks that have multipliers have some with one weight.
pub fn weights_are_shared()
    ensures { WeightsAreShared }
{}

/// Multipliers in own coordinates of rules and a box are such multipliers of the rules, and of the box for what they leave.
pub fn own_rules_apart()
    ensures { OwnRulesApart }
{}

/// Such multipliers of the rules, and of the box for what they leave, are multipliers of both.
pub fn own_rules_together()
    ensures { OwnRulesTogether }
{}

/// A convex chooser who is solved has multipliers of its rules; no condition on the rules is needed.
pub fn solved_has_multipliers()
    ensures { SolvedHasMultipliers }
{}

/// A chooser with multipliers is solved.
pub fn multipliers_solve()
    ensures { MultipliersSolve }
{}

/// A chooser with multipliers has rows: factors of its box, with the same multipliers of the rules.
pub fn multipliers_have_rows()
    ensures { MultipliersHaveRows }
{}

/// A convex chooser whose rows hold has multipliers.
pub fn rows_have_multipliers()
    ensures { RowsHaveMultipliers }
{}
