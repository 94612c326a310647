//! Laws of dictionaries. The functions state laws, and have no code that runs.
ghost use Rattle.emp_dict.specs.Example.{ExampleDictionaries};
ghost use Rattle.emp_dict.specs.Laws.{ExchangesKeep, LayoutsFit, MarksKeep, StartsTell};

/// At the start each row tells its quantity, and the last one the objective, at every base vector.
pub fn starts_tell()
    ensures { StartsTell }
{}

/// An exchange keeps the set of solutions, both ways.
pub fn exchanges_keep()
    ensures { ExchangesKeep }
{}

/// A change of a mark keeps what every dictionary keeps.
pub fn marks_keep()
    ensures { MarksKeep }
{}

/// A dictionary is one by places, and its exchanges are pivots of the places.
pub fn layouts_fit()
    ensures { LayoutsFit }
{}

/// Worked examples of a start, an exchange, a wide one, and choices.
pub fn example_dictionaries()
    ensures { ExampleDictionaries }
{}
