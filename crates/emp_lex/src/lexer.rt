//! The tokens of a text.
ghost use Rattle.std.specs.Prelude.{◌≡◌, ◌+◌, ◌<◌, ◌≤◌, length, MatchResult};
ghost use Rattle.emp_lex.specs.Tokens.{past_byte, past, start, fault_at, Tells, IsTooWide, IsTokenList, Refuses};

use crate::fault::LexFault;
use crate::piece::{Defect, Step, next_step};
use crate::token::{Token, TokenKind};
use emp_ast::tree::Place;
use emp_numeral::numeral::{NumeralFault, read_numeral};
use std::alloc::Global;

/// The place behind a byte.
fn past_byte(place: Place, b: u8) -> Place
    requires line { place.line < 4294967295 }
    requires column { place.column < 4294967295 }
    ensures { result ≡ past_byte place b }
{
    if b == b'\n' {
        Place {
            line: place.line + 1,
            column: 1,
        }
    } else {
        Place {
            line: place.line,
            column: place.column + 1,
        }
    }
}

/// The place behind the bytes.
pub fn past(place: Place, bytes: &[u8]) -> Place
    requires line { place.line + length bytes.now ≤ 4294967295 }
    requires column { place.column + length bytes.now ≤ 4294967295 }
    ensures value { result ≡ past place bytes.now }
    ensures line { result.line ≤ place.line + length bytes.now }
    ensures column { result.column ≤ place.column + length bytes.now }
{
    let mut place = place;
    for b in bytes {
        place = past_byte(place, *b);
    }
    place
}

/// The place behind the last byte of a text.
pub fn end_of(text: &[u8]) -> Place
    requires { length text.now < 4294967295 }
    ensures { result ≡ past start text.now }
{
    past(Place { line: 1, column: 1 }, text)
}

fn fault_at(defect: Defect, place: Place) -> LexFault
    ensures { result ≡ fault_at defect place }
{
    match defect {
        Defect::BadByte => LexFault::BadByte(place),
        Defect::LongName => LexFault::LongName(place),
        Defect::OpenBlock => LexFault::OpenBlock(place),
        Defect::Dollar => LexFault::Dollar(place),
    }
}

/// Whether the bytes are a numeral with a value that is too wide.
#[tactic(auto, using(crate::proofs::Wides::tells))]
fn is_too_wide(kind: TokenKind, bytes: &[u8]) -> bool
    ensures { Tells result (IsTooWide kind bytes.now) }
{
    if kind != TokenKind::Numeral {
        return false;
    }
    match read_numeral(bytes) {
        Err(NumeralFault::Wide) => true,
        Err(NumeralFault::Form) => false,
        Ok(_) => false,
    }
}

/// The tokens of the text, or the first fault in it, as `specs/Tokens.antt` defines both.
pub fn tokens(alloc: Global, text: &[u8]) -> Result<Vec<Token>, LexFault>
    requires { length text.now < 4294967295 }
    ensures { MatchResult result (λ v. IsTokenList text.now v.items) (λ e. Refuses text.now e) }
{
    let mut found = Vec::new(alloc);
    let mut at = 0;
    let mut place = Place { line: 1, column: 1 };
    while at < text.len() {
        let size = match next_step(alloc, place.column == 1, &text[at..])? {
            Step::Skip(size) => size,
            Step::Take(kind, size) => {
                if is_too_wide(kind, &text[at..at + size]) {
                    return Err(LexFault::Number(place));
                }
                found.push(Token {
                    kind,
                    from: at as u32,
                    to: (at + size) as u32,
                    place,
                })?;
                size
            }
            Step::Stop(defect) => return Err(fault_at(defect, place)),
        };
        place = past(place, &text[at..at + size]);
        at += size;
    }
    Ok(found)
}
