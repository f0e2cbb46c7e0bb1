//! The operators of expressions by what they do, and how they are spelled.

ghost use Rattle.std.specs.Prelude.{◌≡◌, IfOk};
ghost use Rattle.cxx_phrases.specs.Operators as definition;

use cxx_cursor::{Cursor, begins_operand, begins_unary, is_member_pointer};
use cxx_model::{Base, Text, TokenKind, keyword, punct};
use std::alloc::AllocError;

// The level of a binary operator, from the one that binds most tightly outward (5.6 to 5.15).
fn level_of(number: u8) -> u32
    ensures { result ≡ definition.level_of number }
{
    match number {
        punct::STAR => 1,
        punct::SLASH => 1,
        punct::PERCENT => 1,
        punct::PLUS => 2,
        punct::MINUS => 2,
        punct::SHIFT_LEFT => 3,
        punct::SHIFT_RIGHT => 3,
        punct::LESS => 4,
        punct::GREATER => 4,
        punct::LESS_OR_EQUAL => 4,
        punct::GREATER_OR_EQUAL => 4,
        punct::EQUAL_TO => 5,
        punct::NOT_EQUAL_TO => 5,
        punct::AMPERSAND => 6,
        punct::CARET => 7,
        punct::BAR => 8,
        punct::LOGICAL_AND => 9,
        punct::LOGICAL_OR => 10,
        _ => 0,
    }
}

/// The level of a logical-or-expression (5.15).
pub(crate) const OUTERMOST: u32 = 10;

/// Whether a token is an operator of a level.
#[tactic(auto, unfolding(crate::specs::Operators::is_of_level))]
pub(crate) fn is_of_level(level: u32, kind: TokenKind) -> bool
    ensures { result ≡ definition.is_of_level level kind }
{
    match kind {
        TokenKind::Punct(number) => level_of(number) == level,
        _ => false,
    }
}

/// Whether a token selects a member by a pointer to it (5.5).
#[tactic(auto, unfolding(crate::specs::Operators::selects_member))]
pub(crate) fn selects_member(kind: TokenKind) -> bool
    ensures { result ≡ definition.selects_member kind }
{
    match kind {
        TokenKind::Punct(number) => is_member_pointer(number),
        _ => false,
    }
}

fn assigns(number: u8) -> bool
    ensures { result ≡ definition.assigns number }
{
    number == punct::EQUALS
        || (number == punct::PLUS_EQUALS
            || (number == punct::MINUS_EQUALS
                || (number == punct::STAR_EQUALS
                    || (number == punct::SLASH_EQUALS
                        || (number == punct::PERCENT_EQUALS
                            || (number == punct::CARET_EQUALS
                                || (number == punct::AMPERSAND_EQUALS
                                    || (number == punct::BAR_EQUALS
                                        || (number == punct::SHIFT_LEFT_EQUALS
                                            || number == punct::SHIFT_RIGHT_EQUALS)))))))))
}

/// Whether a token assigns (5.17).
#[tactic(auto, unfolding(crate::specs::Operators::is_assignment))]
pub(crate) fn is_assignment(kind: TokenKind) -> bool
    ensures { result ≡ definition.is_assignment kind }
{
    match kind {
        TokenKind::Punct(number) => assigns(number),
        _ => false,
    }
}

fn stands_before(number: u8) -> bool
    ensures { result ≡ definition.stands_before number }
{
    number == punct::INCREMENT
        || (number == punct::DECREMENT
            || (number == punct::PLUS
                || (number == punct::MINUS
                    || (number == punct::EXCLAMATION
                        || (number == punct::TILDE
                            || (number == punct::STAR || number == punct::AMPERSAND))))))
}

/// Whether a token is a prefix operator (5.3.1, 5.3.2).
#[tactic(auto, unfolding(crate::specs::Operators::is_prefix))]
pub(crate) fn is_prefix(kind: TokenKind) -> bool
    ensures { result ≡ definition.is_prefix kind }
{
    match kind {
        TokenKind::Punct(number) => stands_before(number),
        _ => false,
    }
}

/// Whether a token is a postfix operator (5.2.6).
#[tactic(auto, unfolding(crate::specs::Operators::is_step))]
pub(crate) fn is_step(kind: TokenKind) -> bool
    ensures { result ≡ definition.is_step kind }
{
    match kind {
        TokenKind::Punct(number) => number == punct::INCREMENT || number == punct::DECREMENT,
        _ => false,
    }
}

/// Whether a token is a literal (2.13).
#[tactic(auto, unfolding(crate::specs::Operators::is_literal))]
pub(crate) fn is_literal(kind: TokenKind) -> bool
    ensures { result ≡ definition.is_literal kind }
{
    match kind {
        TokenKind::Integer => true,
        TokenKind::Character => true,
        TokenKind::Text => true,
        TokenKind::Keyword(number) => number == keyword::TRUE || number == keyword::FALSE,
        _ => false,
    }
}

/// Whether a token is `this` (9.3.2).
#[tactic(auto, unfolding(crate::specs::Operators::is_this))]
pub(crate) fn is_this(kind: TokenKind) -> bool
    ensures { result ≡ definition.is_this kind }
{
    match kind {
        TokenKind::Keyword(number) => number == keyword::THIS,
        _ => false,
    }
}

/// Whether a token is the word of a cast (5.2.9 to 5.2.11).
#[tactic(auto, unfolding(crate::specs::Operators::is_cast_word))]
pub(crate) fn is_cast_word(kind: TokenKind) -> bool
    ensures { result ≡ definition.is_cast_word kind }
{
    match kind {
        TokenKind::Keyword(number) => {
            number == keyword::STATIC_CAST
                || (number == keyword::CONST_CAST || number == keyword::REINTERPRET_CAST)
        }
        _ => false,
    }
}

fn base_of_word(number: u8) -> Option<Base>
    ensures { result ≡ definition.base_of_word number }
{
    match number {
        keyword::BOOL => Some(Base::Bool),
        keyword::CHAR => Some(Base::Char),
        keyword::INT => Some(Base::Int),
        keyword::WCHAR_T => Some(Base::WideChar),
        keyword::FLOAT => Some(Base::Float),
        keyword::DOUBLE => Some(Base::Double),
        keyword::VOID => Some(Base::Void),
        keyword::SIGNED => Some(Base::Int),
        keyword::UNSIGNED => Some(Base::Unsigned),
        keyword::SHORT => Some(Base::Short),
        keyword::LONG => Some(Base::Long),
        _ => None,
    }
}

/// The type that a word of a type names by itself (5.2.3, 7.1.5.2).
#[tactic(auto, unfolding(crate::specs::Operators::base_of_kind))]
pub(crate) fn base_of_kind(kind: TokenKind) -> Option<Base>
    ensures { result ≡ definition.base_of_kind kind }
{
    match kind {
        TokenKind::Keyword(number) => base_of_word(number),
        _ => None,
    }
}

fn begins_with(number: u8) -> bool
    ensures { result ≡ definition.begins_with number }
{
    begins_operand(number) || (number == keyword::TYPEID || number == keyword::DYNAMIC_CAST)
}

/// Whether the operand of a cast can begin with a token (5.4).
#[tactic(auto, unfolding(crate::specs::Operators::begins_expression))]
pub(crate) fn begins_expression(kind: TokenKind) -> bool
    ensures { result ≡ definition.begins_expression kind }
{
    match kind {
        TokenKind::Name => true,
        TokenKind::Integer => true,
        TokenKind::Character => true,
        TokenKind::Text => true,
        TokenKind::Keyword(number) => begins_with(number),
        TokenKind::Punct(number) => begins_unary(number),
        TokenKind::End => false,
    }
}

// An operator is spelled in its primary form (2.5).
fn spelling_of(number: u8) -> &'static [u8]
    ensures { result.now ≡ definition.spelling_of number }
{
    match number {
        punct::STAR => b"*",
        punct::SLASH => b"/",
        punct::PERCENT => b"%",
        punct::PLUS => b"+",
        punct::MINUS => b"-",
        punct::SHIFT_LEFT => b"<<",
        punct::SHIFT_RIGHT => b">>",
        punct::LESS => b"<",
        punct::GREATER => b">",
        punct::LESS_OR_EQUAL => b"<=",
        punct::GREATER_OR_EQUAL => b">=",
        punct::EQUAL_TO => b"==",
        punct::NOT_EQUAL_TO => b"!=",
        punct::AMPERSAND => b"&",
        punct::CARET => b"^",
        punct::BAR => b"|",
        punct::LOGICAL_AND => b"&&",
        punct::LOGICAL_OR => b"||",
        punct::EQUALS => b"=",
        punct::PLUS_EQUALS => b"+=",
        punct::MINUS_EQUALS => b"-=",
        punct::STAR_EQUALS => b"*=",
        punct::SLASH_EQUALS => b"/=",
        punct::PERCENT_EQUALS => b"%=",
        punct::CARET_EQUALS => b"^=",
        punct::AMPERSAND_EQUALS => b"&=",
        punct::BAR_EQUALS => b"|=",
        punct::SHIFT_LEFT_EQUALS => b"<<=",
        punct::SHIFT_RIGHT_EQUALS => b">>=",
        punct::INCREMENT => b"++",
        punct::DECREMENT => b"--",
        punct::EXCLAMATION => b"!",
        punct::TILDE => b"~",
        punct::COMMA => b",",
        punct::QUESTION => b"?",
        _ => b"",
    }
}

/// The operator ahead, as it is spelled in its primary form.
#[tactic(auto, unfolding(crate::specs::Operators::operator_ahead))]
pub(crate) fn operator_ahead(cursor: &Cursor<'_>) -> Result<Text, AllocError>
    ensures { IfOk result (λ text. text ≡ definition.operator_ahead cursor.now) }
{
    match cursor.kind() {
        TokenKind::Punct(number) => Text::from_slice(cursor.alloc(), spelling_of(number)),
        _ => Ok(Text::new(cursor.alloc())),
    }
}
