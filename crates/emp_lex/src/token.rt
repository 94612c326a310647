//! Tokens.
ghost use Rattle.std.specs.Prelude.{◌≡◌, slice_range};

use emp_ast::tree::Place;

/// What a token is. The forms stand in `specs/Forms.antt`.
#[derive(Clone, Copy, Debug, PartialEq, Eq)]
pub enum TokenKind {
    /// A letter, then letters, digits and `_`, at most 63 bytes.
    Name,
    /// Digits with at most one point, and an exponent or none.
    Numeral,
    /// Bytes of one line between two equal quotes.
    Text,
    /// `=e=`, `=g=`, `=l=` or `=n=`, without case.
    Relation,
    /// `**`, `..` or a single sign.
    Symbol,
}

/// The bytes of a text from `from` up to and without `to`, and their place.
#[derive(Clone, Copy, Debug, PartialEq, Eq)]
pub struct Token {
    pub kind: TokenKind,
    pub from: u32,
    pub to: u32,
    pub place: Place,
}

/// The bytes of a text from `from` up to and without `to`.
pub fn part(text: &[u8], from: u32, to: u32) -> &[u8]
    ensures { result.now ≡ slice_range text.now from to }
{
    let from = from as usize;
    let to = (to as usize).min(text.len());
    if from < to {
        &text[from..to]
    } else {
        &text[..0]
    }
}
