//! How expressions begin (5).

ghost use Rattle.std.specs.Prelude.{◌≡◌, IfOk};
ghost use Rattle.cxx_model.specs.Stops.{Faulty, fault};
ghost use Rattle.cxx_reading.specs.Constants as definition;
ghost use Rattle.cxx_reading.specs.Reads.{kind_ahead, place_ahead};

use crate::cursor::Cursor;
use crate::words::type_word;
use cxx_model::{Fault, FaultText, LeftOut, TokenKind, keyword, punct};
use std::alloc::AllocError;

/// Keywords with which an expression begins (5).
pub fn begins_operand(number: u8) -> bool
    ensures { result ≡ definition.begins_operand number }
{
    number == keyword::TRUE
        || (number == keyword::FALSE
            || (number == keyword::THIS
                || (number == keyword::SIZEOF
                    || (number == keyword::NEW
                        || (number == keyword::DELETE
                            || (number == keyword::OPERATOR
                                || (number == keyword::TYPENAME
                                    || (number == keyword::STATIC_CAST
                                        || (number == keyword::CONST_CAST
                                            || (number == keyword::REINTERPRET_CAST
                                                || type_word(number).is_some()))))))))))
}

/// What else an expression begins with (5.3).
pub fn begins_unary(number: u8) -> bool
    ensures { result ≡ definition.begins_unary number }
{
    number == punct::LEFT_PARENTHESIS
        || (number == punct::SCOPE
            || (number == punct::PLUS
                || (number == punct::MINUS
                    || (number == punct::STAR
                        || (number == punct::AMPERSAND
                            || (number == punct::EXCLAMATION
                                || (number == punct::TILDE
                                    || (number == punct::INCREMENT
                                        || number == punct::DECREMENT))))))))
}

fn keyword_text(number: u8) -> FaultText
    ensures { result ≡ definition.keyword_text number }
{
    if number == keyword::TYPEID {
        return FaultText::LeftOut(LeftOut::Typeid);
    }
    if number == keyword::DYNAMIC_CAST {
        return FaultText::LeftOut(LeftOut::DynamicCast);
    }
    if begins_operand(number) {
        FaultText::NotBuilt
    } else {
        FaultText::SyntaxError
    }
}

// What is said of a token where an expression would begin.
fn expression_text(kind: TokenKind) -> FaultText
    ensures { result ≡ definition.expression_text kind }
{
    match kind {
        TokenKind::Name => FaultText::NotBuilt,
        TokenKind::Text => FaultText::NotBuilt,
        TokenKind::Keyword(number) => keyword_text(number),
        TokenKind::Punct(number) => {
            if begins_unary(number) {
                FaultText::NotBuilt
            } else {
                FaultText::SyntaxError
            }
        }
        _ => FaultText::SyntaxError,
    }
}

/// What stands where an expression would begin.
pub fn no_expression(cursor: &Cursor<'_>) -> Result<Box<Fault>, AllocError>
    ensures { IfOk result (λ at. Faulty at.value ≡ fault (place_ahead cursor.now) (definition.expression_text (kind_ahead cursor.now))) }
{
    cursor.faulty(expression_text(cursor.kind()))
}

/// What selects a member by a pointer to it (5.5).
pub fn is_member_pointer(number: u8) -> bool
    ensures { result ≡ definition.is_member_pointer number }
{
    number == punct::DOT_STAR || number == punct::ARROW_STAR
}
