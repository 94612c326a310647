//! The law of numerals, stated for the layers above.
ghost use Rattle.emp_numeral.specs.NumeralText.{NumeralsAreTexts};

/// A text has a numeral's form exactly where it is put together from a numeral's parts, which are those that are read.
pub fn numerals_are_texts()
    ensures { NumeralsAreTexts }
{}
