//! The laws of what a file and a request determine, and of certificates that the program found itself.
ghost use Rattle.emp_outcome_laws.specs.Laws.{OneBroken, OneFault, OneEnd, OneFilling, OneAnswer, OwnPasses};
ghost use Rattle.emp_outcome_laws.specs.Certificates.{OneCheck, OneMigration, OneOfText};
ghost use Rattle.emp_outcome_laws.specs.Images.{AcceptedStands};

/// A file has one first broken rule of ownership, memory aside.
pub fn one_broken()
    ensures { OneBroken }
{}

/// A file that has no row system has one fault, memory aside.
pub fn one_fault()
    ensures { OneFault }
{}

/// The search of a row system with so many units ends in one way, memory aside: with one certificate, or with one fault.
pub fn one_end()
    ensures { OneEnd }
{}

/// The way back of a point gives one list of values, or one first wide value, memory aside.
pub fn one_filling()
    ensures { OneFilling }
{}

/// Two outcomes that `solve` may have for the same file and the same request are the same outcome.
pub fn one_answer()
    ensures { OneAnswer }
{}

/// The text of the certificate of a search, checked against the files that the search was of, is accepted with the verdict that was
/// found, or a number that is formed in its test is wide.
pub fn own_passes()
    ensures { OwnPasses }
{}

/// The text of a certificate, checked for a file that has its rows, is answered by its test against these rows, and not otherwise.
pub fn one_check()
    ensures { OneCheck }
{}

/// And so it is migrated.
pub fn one_migration()
    ensures { OneMigration }
{}

/// Two outcomes that `check` may have for the same file and the same third text are the same outcome, and two of `migrate` are.
pub fn one_of_text()
    ensures { OneOfText }
{}

/// Where a certificate is accepted for the rows of a file, the point or the ray that its verdict names has its point of the file, and
/// that is what the verdict says.
pub fn accepted_stands()
    ensures { AcceptedStands }
{}
