//! Tests of the token with which a statement begins.

ghost use Rattle.std.specs.Prelude.{◌≡◌};
ghost use Rattle.cxx_statements.specs.Statements as definition;

use cxx_cursor::{is_keyword, is_punct};
use cxx_model::{TokenKind, keyword, punct};

/// Whether it is a keyword with which a statement begins that is neither an expression nor a declaration.
#[tactic(auto, unfolding(crate::specs::Statements::begins_statement))]
pub(crate) fn begins_statement(kind: TokenKind) -> bool
    ensures { result ≡ definition.begins_statement kind }
{
    is_keyword(keyword::IF, kind)
        || is_keyword(keyword::SWITCH, kind)
        || is_keyword(keyword::CASE, kind)
        || is_keyword(keyword::DEFAULT, kind)
        || is_keyword(keyword::WHILE, kind)
        || is_keyword(keyword::DO, kind)
        || is_keyword(keyword::FOR, kind)
        || is_keyword(keyword::BREAK, kind)
        || is_keyword(keyword::CONTINUE, kind)
        || is_keyword(keyword::RETURN, kind)
}

/// Whether a block begins, or a declaration of no objects.
#[tactic(auto, unfolding(crate::specs::Statements::begins_no_object))]
pub(crate) fn begins_no_object(kind: TokenKind) -> bool
    ensures { result ≡ definition.begins_no_object kind }
{
    is_punct(punct::LEFT_BRACE, kind)
        || is_keyword(keyword::USING, kind)
        || is_keyword(keyword::NAMESPACE, kind)
}

/// Whether a label begins (6.1).
#[tactic(auto, unfolding(crate::specs::Statements::is_label))]
pub(crate) fn is_label(kind: TokenKind) -> bool
    ensures { result ≡ definition.is_label kind }
{
    is_keyword(keyword::CASE, kind) || is_keyword(keyword::DEFAULT, kind)
}
