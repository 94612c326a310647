//! Lines by place and by name.
ghost use Rattle.std.specs.Prelude.{◌≡◌, ◌≤◌, ◌+◌, ◌++◌, codes, decimal, length, take};
ghost use Rattle.emp_report.specs.TextLines.{variable_name, equation_name, place_text, placed_line, named_line};
ghost use Rattle.emp_report.specs.ClassLines.{tree_line};

use emp_ast::model::Model;
use emp_ast::tree::{EquId, Place, VarId};
use emp_command::line::{Line, add, numbered, plain};

/// A line that begins with a text and a place.
pub fn at_place(start: &[u8], place: Place) -> Line
    requires { length start.now ≤ 60 }
    ensures bytes { result.items ≡ start.now ++ place_text place }
    ensures short { length result.items ≤ 60 + 81 }
{
    let mut line = numbered(start, u64::from(place.line), b":");
    let column = numbered(b"", u64::from(place.column), b"");
    add(&mut line, column.as_slice());
    line
}

/// The line of a fault at a place of a text, with its word behind the place.
pub fn placed(start: &[u8], place: Place, word: &[u8]) -> Line
    requires start { length start.now ≤ 60 }
    requires word { length word.now ≤ 30 }
    ensures { result.items ≡ placed_line start.now place word.now }
{
    let mut line = at_place(start, place);
    add(&mut line, b" ");
    add(&mut line, word);
    add(&mut line, b"\n");
    line
}

/// The line of a fault at a place of a tree.
pub fn in_tree(start: &[u8], place: Place) -> Line
    requires { length start.now ≤ 60 }
    ensures { result.items ≡ tree_line start.now place }
{
    let mut line = at_place(start, place);
    add(&mut line, b"\n");
    line
}

/// The first bytes of a name, for which a line has room.
#[tactic(auto, using(crate::proofs::Names::cutting))]
pub fn cut(name: &[u8]) -> &[u8]
    ensures bytes { result.now ≡ take 63 name.now }
    ensures short { length result.now ≤ 63 }
{
    &name[..name.len().min(63)]
}

/// The line of a fault of a variable or an equation.
pub fn named(start: &[u8], word: &[u8], name: &[u8]) -> Line
    requires start { length start.now ≤ 60 }
    requires word { length word.now ≤ 30 }
    ensures { result.items ≡ named_line start.now word.now name.now }
{
    let mut line = plain(start);
    add(&mut line, word);
    add(&mut line, b" ");
    add(&mut line, cut(name));
    add(&mut line, b"\n");
    line
}

/// The name of a variable of the model, empty where there is none of this number.
#[tactic(auto, using(crate::proofs::Names::naming))]
pub fn variable_name(model: &Model, variable: VarId) -> &[u8]
    ensures { result.now ≡ variable_name model.now variable }
{
    let at = variable.at as usize;
    if at < model.variables.len() {
        model.variables.get(at).name.as_bytes()
    } else {
        b""
    }
}

/// The name of an equation of the model, empty where there is none of this number.
#[tactic(auto, using(crate::proofs::Names::naming))]
pub fn equation_name(model: &Model, equation: EquId) -> &[u8]
    ensures { result.now ≡ equation_name model.now equation }
{
    let at = equation.at as usize;
    if at < model.equations.len() {
        model.equations.get(at).name.as_bytes()
    } else {
        b""
    }
}
