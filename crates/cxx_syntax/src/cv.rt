ghost use Rattle.cxx_reading.specs.Syntax as definition;
ghost use Rattle.cxx_cursor.specs.Reading.{Takes};
ghost use Rattle.cxx_cursor.specs.Views.{turn_at};

use cxx_cursor::{Cursor, Turn, is_keyword, is_punct};
use cxx_model::{Cv, FaultText, LeftOut, Stop, keyword, punct};

// A word behind `*` (8.3.1), each once.
#[tactic(auto, unfolding(cxx_reading::specs::Syntax::cv_step))]
fn cv_step(cursor: &mut Cursor<'_>, cv: Cv) -> Result<Turn<Cv, Cv>, Stop>
    ensures { Takes (turn_at (λ x. x) (λ x. x)) cursor.new result (definition.cv_step cv tt cursor.old) }
{
    if is_keyword(keyword::CONST, cursor.kind()) {
        if cv.is_const {
            return Err(Stop::Fault(cursor.refused()?));
        }
        cursor.advance();
        return Ok(Turn::More(Cv {
            is_const: true,
            is_volatile: cv.is_volatile,
        }));
    }
    if is_keyword(keyword::VOLATILE, cursor.kind()) {
        if cv.is_volatile {
            return Err(Stop::Fault(cursor.refused()?));
        }
        cursor.advance();
        return Ok(Turn::More(Cv {
            is_const: cv.is_const,
            is_volatile: true,
        }));
    }
    Ok(Turn::Done(cv))
}

// All words behind `*`.
#[tactic(auto, using(cxx_cursor::proofs::Loops::turn, cxx_cursor::proofs::Loops::no_turn), unfolding(cxx_reading::specs::Syntax::cv_at))]
pub(crate) fn cv_at(cursor: &mut Cursor<'_>) -> Result<Cv, Stop>
    ensures { Takes (λ x. x) cursor.new result (definition.cv_at tt cursor.old) }
{
    let mut cv = Cv {
        is_const: false,
        is_volatile: false,
    };
    for _turn in 0..cursor.count() {
        match cv_step(cursor, cv)? {
            Turn::More(next) => cv = next,
            Turn::Done(cv) => return Ok(cv),
        }
    }
    Ok(cv)
}

// An empty list of exceptions (15.4).
#[tactic(auto, unfolding(cxx_reading::specs::Syntax::exceptions_at))]
pub(crate) fn exceptions_at(cursor: &mut Cursor<'_>) -> Result<(), Stop>
    ensures { Takes (λ x. x) cursor.new result (definition.exceptions_at tt cursor.old) }
{
    if !is_keyword(keyword::THROW, cursor.kind()) {
        return Ok(());
    }
    let throw = cursor.mark();
    cursor.advance();
    if !is_punct(punct::LEFT_PARENTHESIS, cursor.kind()) {
        return Err(Stop::Fault(cursor.refused()?));
    }
    cursor.advance();
    if !is_punct(punct::RIGHT_PARENTHESIS, cursor.kind()) {
        let form = FaultText::LeftOut(LeftOut::ExceptionSpecification);
        return Err(Stop::Fault(throw.faulty(form)?));
    }
    cursor.advance();
    Ok(())
}
