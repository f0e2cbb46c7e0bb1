//! The words behind the parameters of a function (9.3.1).
ghost use Rattle.std.specs.Prelude.{◌≡◌, ◌<◌, [], length, if◌then◌else◌};
ghost use Rattle.cxx_model.specs.Facts.Declarations.{type_of_option};
ghost use Rattle.cxx_model.specs.Facts.Fitted.{IsTypeNumberBelow};
ghost use Rattle.cxx_model.specs.Types.Numbers.{type_at};
ghost use Rattle.cxx_page.specs.Sheets.{Writes, put};
ghost use Rattle.cxx_reading.specs.Plain.{type_or_void};
ghost use Rattle.cxx_reading.specs.Words.{cv_words, one_word};
ghost use Rattle.cxx_form.specs.Books.{facts_of};
ghost use Rattle.cxx_form.specs.Definitions.{words_behind, words_of_type};

use crate::book::Book;
use crate::heads::object_type;
use crate::words::no_cv;
use cxx_model::{Cv, FactId, TypeId, TypeNode};
use cxx_page::{Page, PlainFault};
use cxx_reading::Role;
use cxx_types::TypeTable;

// The words behind the parameters, by the type of a function.
fn cv_by(types: &TypeTable, number: TypeId) -> Cv
    requires { number.0 < length types.now }
    ensures { cv_words result ≡ words_of_type (type_at types.now number.0) }
{
    match types.node(number) {
        TypeNode::Function { cv, .. } => *cv,
        _ => no_cv(),
    }
}

fn cv_of(types: &TypeTable, of: Option<TypeId>) -> Cv
    requires { IsTypeNumberBelow (length types.now) of }
    ensures { cv_words result ≡ words_of_type (type_or_void (type_of_option types.now of)) }
{
    let Some(number) = of else {
        return no_cv();
    };
    cv_by(types, number)
}

#[tactic(auto, using(cxx_page::proofs::Put::put_none))]
fn write_if(page: &mut Page, stands: bool, spelling: &[u8]) -> Result<(), PlainFault>
    ensures { Writes result page.new (put (if stands then one_word spelling.now else []) page.old) }
{
    if stands {
        return page.word(Role::Alone, spelling);
    }
    Ok(())
}

// Writes cv words, `const` first (3.9.3).
#[tactic(auto, using(cxx_page::proofs::Put::put_append))]
fn write_cv(page: &mut Page, cv: Cv) -> Result<(), PlainFault>
    ensures { Writes result page.new (put (cv_words cv) page.old) }
{
    write_if(page, cv.is_const, b"const")?;
    write_if(page, cv.is_volatile, b"volatile")
}

/// Writes the words behind the parameters of a function, by its first declaration.
pub(crate) fn write_words_behind(
    book: &Book<'_>,
    page: &mut Page,
    number: FactId,
) -> Result<(), PlainFault>
    ensures { Writes result page.new (put (words_behind (facts_of book.now) number.0) page.old) }
{
    let of = object_type(book.state, number);
    write_cv(page, cv_of(book.state.types(), of))
}
