//! What the definitions say of every text, for the layers above.
//!
//! No function here runs.
ghost use Rattle.emp_lex.specs.Laws.{OneReading, OnlyNothingIsPassed, TokensAreLongest, TokensHaveForms};

/// Each text has a list of tokens or a first fault, one of them, and not both.
pub fn one_reading()
    ensures { OneReading }
{}

/// The bytes of each token have the form of its kind.
pub fn tokens_have_forms()
    ensures { TokensHaveForms }
{}

/// What is passed over between tokens are blanks, comments, listed dollar lines and blocks.
pub fn only_nothing_is_passed()
    ensures { OnlyNothingIsPassed }
{}

/// Where a token is taken, none that the text begins with is longer; where a byte is bad, the text begins with none.
pub fn tokens_are_longest()
    ensures { TokensAreLongest }
{}
