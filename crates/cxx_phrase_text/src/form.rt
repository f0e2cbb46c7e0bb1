//! The forms in which expressions are written, and how they stand as parts of others.
ghost use Rattle.std.specs.Prelude.{◌≡◌};
ghost use Rattle.cxx_phrase_text.specs.Forms as forms;
ghost use Rattle.cxx_phrase_text.specs.Phrases as phrases;

use crate::production::{
    ARROW, ASSIGNMENT, BINARY, CALL, CAST, CONDITIONAL, FUNCTIONAL_CAST, INITIALIZER, MEMBER, NAME,
    PARENTHESIS, POSTFIX_STEP, PREFIX, SUBSCRIPT,
};

/// A form in which expressions are written (clause 5, 8.5).
#[derive(Clone, Copy)]
pub(crate) enum Form {
    /// A literal, and a size, which is its value.
    Spelled,
    Name,
    Parenthesis,
    Call,
    /// `T()`, of a type that is no class.
    Zero,
    /// A member of an object.
    Member,
    /// A member of what is pointed to, which is written as one of an object.
    Arrow,
    Subscript,
    Postfix,
    Prefix,
    /// A cast, and a conversion that nothing spells.
    Cast,
    /// A binary operator, an assignment, a comma.
    Infix,
    Conditional,
    /// An initializer, and the braces in it.
    Initial,
}

/// How an expression stands as a part of another.
#[derive(Clone, Copy)]
pub(crate) enum Standing {
    /// Without parentheses.
    Primary,
    /// In parentheses where it is an operand.
    Operation,
    /// In parentheses as an element of a list too (5.18).
    Comma,
}

/// The form of a production.
pub(crate) fn form_of(production: u8) -> Form
    ensures { result ≡ forms.form_of production }
{
    match production {
        INITIALIZER => Form::Initial,
        NAME => Form::Name,
        PARENTHESIS => Form::Parenthesis,
        CALL => Form::Call,
        FUNCTIONAL_CAST => Form::Zero,
        MEMBER => Form::Member,
        ARROW => Form::Arrow,
        SUBSCRIPT => Form::Subscript,
        POSTFIX_STEP => Form::Postfix,
        PREFIX => Form::Prefix,
        CAST => Form::Cast,
        BINARY => Form::Infix,
        CONDITIONAL => Form::Conditional,
        ASSIGNMENT => Form::Infix,
        _ => Form::Spelled,
    }
}

pub(crate) fn is_primary(standing: Standing) -> bool
    ensures { result ≡ phrases.is_primary standing }
{
    match standing {
        Standing::Primary => true,
        _ => false,
    }
}

pub(crate) fn is_comma(standing: Standing) -> bool
    ensures { result ≡ phrases.is_comma standing }
{
    match standing {
        Standing::Comma => true,
        _ => false,
    }
}
