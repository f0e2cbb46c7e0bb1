//! Names and types.
ghost use Rattle.std.specs.Prelude.{◌≡◌, [], ◌∷◌, ◌++◌};
ghost use Rattle.cxx_model.specs.Facts.Fitted.{IsTypeNumberBelow};
ghost use Rattle.cxx_page.specs.Sheets.{Writes, put};
ghost use Rattle.cxx_page.specs.Sides.{back, comma_unless, front};
ghost use Rattle.cxx_page.specs.Views.{tags_of};
ghost use Rattle.cxx_reading.specs.Declarators.{no_cv as no_cv_of};
ghost use Rattle.cxx_reading.specs.Words.{declared, name_word};
ghost use Rattle.std.specs.Prelude.{length};
ghost use Rattle.cxx_form.specs.Books.{names_of, type_for, IsBook};

use crate::book::Book;
use crate::names::stem_at;
use crate::shared::representative;
use cxx_model::{Cv, FactId, TypeId};
use cxx_page::{
    Page, PlainFault, write_declaration_back, write_declaration_front, write_name as write_printed,
};
use cxx_phrase_text::Names;
use cxx_reading::Role;
use cxx_tree::State;

/// Writes a comma, unless nothing stands before it.
#[tactic(auto, using(cxx_page::proofs::Put::put_none))]
pub(crate) fn write_comma_unless(page: &mut Page, is_first: bool) -> Result<(), PlainFault>
    ensures { Writes result page.new (put (comma_unless is_first) page.old) }
{
    if is_first {
        return Ok(());
    }
    page.word(Role::Follows, b",")
}

/// No cv words (3.9.3).
pub(crate) fn no_cv() -> Cv
    ensures { result ≡ no_cv_of }
{
    Cv {
        is_const: false,
        is_volatile: false,
    }
}

/// Writes the printed name of a declaration.
pub(crate) fn write_name(book: &Book<'_>, page: &mut Page, number: FactId) -> Result<(), PlainFault>
    requires { IsBook book.now }
    ensures { Writes result page.new (put (name_word ((names_of book.now).name_of number.0) ∷ []) page.old) }
{
    let first = representative(book.firsts, number);
    write_printed(
        page,
        Role::Named,
        stem_at(book.state, first),
        book.numbering.number(first.0),
    )
}

/// Writes what stands before the name of what has a type; without one it is `void`.
pub(crate) fn write_front(
    book: &Book<'_>,
    page: &mut Page,
    of: Option<TypeId>,
) -> Result<(), PlainFault>
    requires { IsTypeNumberBelow (length (book.now.state.now).types) of }
    ensures { Writes result page.new (put (front (tags_of book.now.tags.now) no_cv_of (type_for book.now of)) page.old) }
{
    match of {
        Some(of) => write_declaration_front(page, book.state.types(), book.tags, no_cv(), of),
        None => page.word(Role::Alone, b"void"),
    }
}

/// Writes what stands behind that name.
#[tactic(auto, using(cxx_page::proofs::Put::put_none))]
pub(crate) fn write_back(
    book: &Book<'_>,
    page: &mut Page,
    of: Option<TypeId>,
) -> Result<(), PlainFault>
    requires { IsTypeNumberBelow (length (book.now.state.now).types) of }
    ensures { Writes result page.new (put (back (tags_of book.now.tags.now) (type_for book.now of)) page.old) }
{
    match of {
        Some(of) => write_declaration_back(page, book.state.types(), book.tags, of),
        None => Ok(()),
    }
}

/// Writes a name and what stands behind it.
#[tactic(auto, using(cxx_page::proofs::Put::put_more))]
pub(crate) fn write_named(
    book: &Book<'_>,
    page: &mut Page,
    of: Option<TypeId>,
    number: FactId,
) -> Result<(), PlainFault>
    requires book { IsBook book.now }
    requires below { IsTypeNumberBelow (length (book.now.state.now).types) of }
    ensures { Writes result page.new (put (name_word ((names_of book.now).name_of number.0) ∷ back (tags_of book.now.tags.now) (type_for book.now of)) page.old) }
{
    write_name(book, page, number)?;
    write_back(book, page, of)
}

/// Writes the declaration of a name with a type; without one it is `void` (8.3).
#[tactic(auto, using(cxx_page::proofs::Put::put_append, crate::proofs::Typed::declared_with))]
pub(crate) fn write_declared(
    book: &Book<'_>,
    page: &mut Page,
    of: Option<TypeId>,
    number: FactId,
) -> Result<(), PlainFault>
    requires book { IsBook book.now }
    requires below { IsTypeNumberBelow (length (book.now.state.now).types) of }
    ensures { Writes result page.new (put (declared (names_of book.now).tags no_cv_of (type_for book.now of) (name_word ((names_of book.now).name_of number.0) ∷ [])) page.old) }
{
    write_front(book, page, of)?;
    write_named(book, page, of, number)
}

/// Writes a type that stands alone; without one it is `void` (8.1).
#[tactic(auto, using(cxx_page::proofs::Put::put_append, crate::proofs::Typed::declared_alone))]
pub(crate) fn write_alone(
    book: &Book<'_>,
    page: &mut Page,
    of: Option<TypeId>,
) -> Result<(), PlainFault>
    requires book { IsBook book.now }
    requires below { IsTypeNumberBelow (length (book.now.state.now).types) of }
    ensures { Writes result page.new (put (declared (names_of book.now).tags no_cv_of (type_for book.now of) []) page.old) }
{
    write_front(book, page, of)?;
    write_back(book, page, of)
}

impl Names for Book<'_> {
    ghost use Rattle.cxx_form.specs.Books.{named_by, IsBook};

    ghost named = { named_by };

    ghost is_ready = { IsBook };

    fn state(&self) -> &State {
        self.state
    }

    fn write_name(&self, page: &mut Page, number: FactId) -> Result<(), PlainFault> {
        write_name(self, page, number)
    }

    fn write_type(&self, page: &mut Page, of: Option<TypeId>) -> Result<(), PlainFault> {
        write_alone(self, page, of)
    }
}
