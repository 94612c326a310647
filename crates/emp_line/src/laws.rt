//! Worked examples of kept cells and of the index. The functions state laws, and have no code that runs.
ghost use Rattle.emp_line.specs.Example.{ExampleCells, ExampleIndex, ExampleMarks, ExamplePairs, ExampleTable};

/// Cells that stand for a whole line, and lists of cells that stand for none; cells turned and divided.
pub fn example_cells()
    ensures { ExampleCells }
{}

/// Two lines side by side: their pairs, the sums, and where a number is wide.
pub fn example_pairs()
    ensures { ExamplePairs }
{}

/// An index by columns, places and flags of a line in it, and some that are none.
pub fn example_index()
    ensures { ExampleIndex }
{}

/// Lines with their index and the places that are lent, and some that do not fit.
pub fn example_table()
    ensures { ExampleTable }
{}

/// Flags of one line that are changed where it has cells, and changes that are not these.
pub fn example_marks()
    ensures { ExampleMarks }
{}
