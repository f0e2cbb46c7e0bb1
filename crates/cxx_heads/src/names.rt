//! A declarator up to its name (8).

ghost use Rattle.std.specs.Prelude.{◌≡◌, ◌<◌, ◌≤◌, ◌+◌, ◌^◌, IfOk};
ghost use Rattle.cxx_heads.specs.Heads as definition;
ghost use Rattle.cxx_cursor.specs.Reading.{Takes};
ghost use Rattle.cxx_cursor.specs.Views.{IsTurn, turn_at};

use crate::shape::Shape;
use cxx_cursor::{Cursor, Turn, is_keyword, is_punct};
use cxx_model::{Stop, TokenKind, keyword, punct};

pub(crate) fn is_cv_word(kind: TokenKind) -> bool
    ensures { result ≡ definition.is_cv_word kind }
{
    is_keyword(keyword::CONST, kind) || is_keyword(keyword::VOLATILE, kind)
}

// A pointer operator, a bracket or the name.
#[tactic(auto, unfolding(crate::specs::Heads::name_step))]
fn name_step(cursor: &mut Cursor<'_>, shape: Shape) -> Result<Turn<Shape, Option<Shape>>, Stop>
    requires { shape.brackets < 2 ^ 63 }
    ensures is { Takes (turn_at (λ x. x) (λ x. x)) cursor.new result (definition.name_step shape tt cursor.old) }
    ensures few { IfOk result (λ turn. IsTurn (λ next. next.brackets ≤ shape.brackets + 1) (λ x. Unit {0}) turn) }
{
    let kind = cursor.kind();
    if is_punct(punct::STAR, kind) {
        cursor.advance();
        return Ok(Turn::More(Shape {
            brackets: shape.brackets,
            takes_cv: true,
        }));
    }
    if is_cv_word(kind) && shape.takes_cv {
        cursor.advance();
        return Ok(Turn::More(shape));
    }
    if is_punct(punct::AMPERSAND, kind) {
        cursor.advance();
        return Ok(Turn::More(Shape {
            brackets: shape.brackets,
            takes_cv: false,
        }));
    }
    if is_punct(punct::LEFT_PARENTHESIS, kind) {
        cursor.advance();
        return Ok(Turn::More(Shape {
            brackets: shape.brackets + 1,
            takes_cv: false,
        }));
    }
    if cursor.is_plain_name() {
        cursor.advance();
        return Ok(Turn::Done(Some(Shape {
            brackets: shape.brackets,
            takes_cv: false,
        })));
    }
    Ok(Turn::Done(None))
}

/// Passes the name of a declarator and all that stands before it, and answers what is open round it.
#[tactic(auto, using(cxx_cursor::proofs::Loops::turn, cxx_cursor::proofs::Loops::no_turn), unfolding(crate::specs::Heads::name_passed))]
pub(crate) fn name_passed(cursor: &mut Cursor<'_>) -> Result<Option<Shape>, Stop>
    ensures { Takes (λ x. x) cursor.new result (definition.name_passed tt cursor.old) }
{
    let mut shape = Shape {
        brackets: 0,
        takes_cv: false,
    };
    for _turn in 0..cursor.count() {
        match name_step(cursor, shape)? {
            Turn::More(next) => shape = next,
            Turn::Done(named) => return Ok(named),
        }
    }
    Ok(None)
}
