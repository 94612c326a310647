//! Tokens as the grammar of models sees them.
use emp_ast::model::Relation;
use emp_ast::tree::Place;
use emp_lex::token::part;
use emp_num::frac::Frac;

/// A name by what it means where a rule asks for its letters.
#[derive(Clone, Copy, Debug, PartialEq, Eq)]
pub enum Word {
    All,
    Using,
    Emp,
    Mcp,
    Minimizing,
    Maximizing,
    /// `inf`
    Infinity,
    /// `sqr`
    Square,
    Power,
    /// `lo`
    Low,
    /// `up`
    High,
    /// `fx`
    Fixed,
    /// `l`
    Level,
    /// `m`
    Marginal,
    Other,
}

/// The word before `variables`.
#[derive(Clone, Copy, Debug, PartialEq, Eq)]
pub enum Domain {
    Free,
    Positive,
    Negative,
    /// `binary`, `integer`, `semicont`, `semiint`, `sos1` or `sos2`.
    Discrete,
}

/// A sign before an operand or between terms.
#[derive(Clone, Copy, Debug, PartialEq, Eq)]
pub enum Sign {
    Plus,
    Minus,
}

/// What joins factors.
#[derive(Clone, Copy, Debug, PartialEq, Eq)]
pub enum Scale {
    Times,
    Over,
}

/// What a token is. The keywords are no names.
#[derive(Clone, Copy, Debug)]
pub enum Sort {
    Name(Word),
    Numeral(Frac),
    Text,
    Relation(Relation),
    Domain(Domain),
    Variables,
    Equations,
    Model,
    Solve,
    Sign(Sign),
    Scale(Scale),
    /// `**`
    Raise,
    /// `=`
    Equals,
    Semicolon,
    Comma,
    /// `.`
    Dot,
    /// `..`
    Dots,
    /// `(`
    Open,
    /// `)`
    Close,
}

/// A token with what it is: the bytes of a text from `from` up to and without `to`, and the place of the first.
#[derive(Clone, Copy, Debug)]
pub struct Lexeme {
    pub sort: Sort,
    pub from: u32,
    pub to: u32,
    pub place: Place,
}

ghost use Rattle.std.specs.Prelude.{◌≡◌};
ghost use Rattle.gms_grammar.specs.Lexemes.{spelling};

impl Lexeme {
    /// Its bytes in the text.
    pub fn spelling(self, text: &[u8]) -> &[u8]
        ensures { result.now ≡ spelling text.now self }
    {
        part(text, self.from, self.to)
    }
}
