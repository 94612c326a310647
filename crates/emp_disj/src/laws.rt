//! The laws of disjunctions, stated for the layers above.
ghost use Rattle.emp_disj.specs.Owned.{OwnersAreTwo, AllButDefinition};
ghost use Rattle.emp_disj.specs.Laws.{DisjKeepsFit, DisjImagesAreSame, DisjIsSound, DisjLifts, DisjKeepsOrder};
ghost use Rattle.emp_disj.specs.Verdicts.{ChoicePointsSolve, MissingHaveNoChoice, BestAreBestChoices, RaysAreChoiceRays};
ghost use Rattle.emp_disj.specs.Terms.{TermsAreMet, TermsHaveSlacks};

/// Where all weights have a total above 0 and each term has its weight or its slack 0, one term is met.
pub fn terms_are_met()
    ensures { TermsAreMet }
{}

/// Where one term is met there are such weights and slacks.
pub fn terms_have_slacks()
    ensures { TermsHaveSlacks }
{}

/// A row point stands for an admissible point of the model.
pub fn disj_is_sound()
    ensures { DisjIsSound }
{}

/// Each admissible point is that of a row point.
pub fn disj_lifts()
    ensures { DisjLifts }
{}

/// One row point is better exactly where the model's point is.
pub fn disj_keeps_order()
    ensures { DisjKeepsOrder }
{}

/// Where the terms are set apart, the rules of ownership say that there is an objective and that no equation is twice a term.
pub fn owners_are_two()
    ensures { OwnersAreTwo }
{}

/// Every equation but the one that defines the objective is to be affine.
pub fn all_but_definition()
    ensures { AllButDefinition }
{}

/// The model's point of a row point is admissible.
pub fn choice_points_solve()
    ensures { ChoicePointsSolve }
{}

/// Where there is no row point no point is admissible.
pub fn missing_have_no_choice()
    ensures { MissingHaveNoChoice }
{}

/// The model's point of a row point with the least objective is best.
pub fn best_are_best_choices()
    ensures { BestAreBestChoices }
{}

/// A row ray is a ray of the model.
pub fn rays_are_choice_rays()
    ensures { RaysAreChoiceRays }
{}

/// A number for each base variable stands for a point of the model.
pub fn disj_keeps_fit()
    ensures { DisjKeepsFit }
{}

/// The same point of the base variables stands for the same point of the model.
pub fn disj_images_are_same()
    ensures { DisjImagesAreSame }
{}
