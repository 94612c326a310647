//! What is still to come in a text, as the reader keeps it.
use crate::item::Item;
use crate::kind::Kind;
use crate::lexeme::{Domain, Lexeme, Sign};
use emp_ast::model::Sense;

/// What a list of names declares.
#[derive(Clone, Copy, Debug)]
pub enum Declares {
    Variables(Domain),
    Equations,
}

/// A single lexeme that must come.
#[derive(Clone, Copy, Debug)]
pub enum Want {
    Variables,
    Equals,
    Slash,
    Using,
    Emp,
    Mcp,
    Dot,
    Semicolon,
}

/// A part of a text that is still to come. A lexeme in it is one that was read.
#[derive(Clone, Copy, Debug)]
pub enum Symbol {
    /// Statements up to the end.
    File(Kind),
    /// Nothing but `;` up to the end.
    Semicolons,
    Single(Want),
    /// No lexeme: the item is written.
    Write(Item),
    /// A name, a text or none, and what comes behind it in the list.
    Names(Declares),
    OptionalText,
    /// The rest of a list of names, with its `;`.
    MoreNames(Declares),
    /// `..` or `.`, and the rest of the statement that begins with the name.
    AfterName(Lexeme),
    Attribute(Lexeme),
    Value(Lexeme, Lexeme),
    SignedValue(Lexeme, Lexeme, Sign),
    /// A relation and the right side.
    Comparison,
    ModelName(Kind),
    /// `all / ;`
    Everything,
    /// A match and what comes behind it, with the `/ ;`.
    MatchEquation,
    /// The variable of a match, and what comes behind it.
    MatchVariable(Lexeme),
    /// Further matches or none, with the `/ ;`.
    MoreMatches,
    SolveName(Kind),
    /// An objective or none, with the `;`.
    Goal,
    Aim(Sense),
    Sum,
    Factor,
    /// The arguments of the name, or nothing.
    AfterLeaf(Lexeme),
    /// `**` and a numeral, or nothing.
    MorePower,
    Exponent(Lexeme),
    MoreFactors,
    MoreTerms,
    /// The rest of the arguments of the name, with the `)`.
    MoreArguments(Lexeme),
    /// `)`, and what may come behind a primary.
    Closing,
}

/// What a symbol becomes, the first on top.
#[derive(Clone, Copy, Debug)]
pub enum Next {
    Nothing,
    One(Symbol),
    Two(Symbol, Symbol),
    Three(Symbol, Symbol, Symbol),
    Four(Symbol, Symbol, Symbol, Symbol),
}

/// What the symbol on top does at a lexeme.
#[derive(Clone, Copy, Debug)]
pub enum Move {
    Fail,
    /// The symbol stands for nothing.
    Skip(Option<Item>),
    /// The symbol begins with the lexeme.
    Take(Option<Item>, Next),
}
