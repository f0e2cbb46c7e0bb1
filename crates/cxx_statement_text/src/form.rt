//! The forms in which statements are written.
ghost use Rattle.std.specs.Prelude.{◌≡◌};
ghost use Rattle.cxx_statement_text.specs.Forms as forms;

use crate::production::{
    BLOCK, DECLARATION_STATEMENT, DO, FOR, IF, JUMP, LABEL, RETURN, SWITCH, WHILE,
};

/// A form in which statements are written (clause 6).
#[derive(Clone, Copy)]
pub(crate) enum Form {
    Block,
    Declaration,
    /// An expression, or the empty statement.
    Expression,
    If,
    Switch,
    /// A label, or a statement behind its labels.
    Label,
    While,
    Do,
    For,
    /// `break` and `continue`.
    Jump,
    Return,
}

/// The form of a production.
pub(crate) fn form_of(production: u8) -> Form
    ensures { result ≡ forms.form_of production }
{
    match production {
        BLOCK => Form::Block,
        DECLARATION_STATEMENT => Form::Declaration,
        IF => Form::If,
        SWITCH => Form::Switch,
        LABEL => Form::Label,
        WHILE => Form::While,
        DO => Form::Do,
        FOR => Form::For,
        JUMP => Form::Jump,
        RETURN => Form::Return,
        _ => Form::Expression,
    }
}
