//! The names of members that are defined outside of their classes (9.3, 9.4.2).
ghost use Rattle.std.specs.Prelude.{[], ◌∷◌, ◌++◌, length};
ghost use Rattle.cxx_model.specs.Facts.Fitted.{IsTypeNumberBelow};
ghost use Rattle.cxx_model.specs.Facts.Graph.{IsClassNumberInRange};
ghost use Rattle.cxx_expr.specs.Names.{class_or_none, static_class as static_class_of};
ghost use Rattle.cxx_page.specs.Sheets.{Writes, put};
ghost use Rattle.cxx_page.specs.Sides.{back};
ghost use Rattle.cxx_page.specs.Views.{tags_of};
ghost use Rattle.cxx_phrase_text.specs.Phrases.{has_class, named_words, scope_words};
ghost use Rattle.cxx_reading.specs.Declarators.{no_cv};
ghost use Rattle.cxx_reading.specs.Plain.{type_or_void};
ghost use Rattle.cxx_reading.specs.Words.{declared};
ghost use Rattle.cxx_form.specs.Books.{graph_of, names_of, type_for, IsBook};
ghost use Rattle.cxx_form.specs.Definitions.{function_name_words};

use crate::bases::write_class;
use crate::book::Book;
use crate::declaring::class_declaring;
use crate::words::{write_front, write_name, write_named};
use cxx_expr::static_class;
use cxx_model::{ClassId, FactId, TypeId};
use cxx_page::{Page, PlainFault};
use cxx_reading::Role;

// Writes a class and `::`, where there is one.
#[tactic(auto, using(cxx_page::proofs::Put::put_none, cxx_page::proofs::Put::put_more))]
fn write_scope(book: &Book<'_>, page: &mut Page, class: Option<ClassId>) -> Result<(), PlainFault>
    requires book { IsBook book.now }
    requires there { IsClassNumberInRange (book.now.state.now).graph class }
    ensures { Writes result page.new (put (scope_words (names_of book.now).tags (type_or_void (class_or_none class)) (has_class (class_or_none class))) page.old) }
{
    match class {
        None => Ok(()),
        Some(class) => {
            write_class(book, page, class.0)?;
            page.word(Role::Joins, b"::")
        }
    }
}

// Writes a name with its class, and what stands behind it.
#[tactic(auto, using(cxx_page::proofs::Put::put_append, crate::proofs::Typed::behind_scope))]
fn write_scoped(
    book: &Book<'_>,
    page: &mut Page,
    of: Option<TypeId>,
    class: Option<ClassId>,
    number: FactId,
) -> Result<(), PlainFault>
    requires book { IsBook book.now }
    requires below { IsTypeNumberBelow (length (book.now.state.now).types) of }
    requires there { IsClassNumberInRange (book.now.state.now).graph class }
    ensures { Writes result page.new (put (named_words (names_of book.now).tags (names_of book.now).name_of (class_or_none class) number.0 ++ back (tags_of book.now.tags.now) (type_for book.now of)) page.old) }
{
    write_scope(book, page, class)?;
    write_named(book, page, of, number)
}

/// Writes the declaration of a name with a type, behind its class where it is a static member (8.3, 9.4.2).
#[tactic(auto, using(cxx_page::proofs::Put::put_append, crate::proofs::Typed::declared_as), unfolding(cxx_tree::specs::Held::meaning))]
pub(crate) fn write_declared_outside(
    book: &Book<'_>,
    page: &mut Page,
    of: Option<TypeId>,
    number: FactId,
) -> Result<(), PlainFault>
    requires book { IsBook book.now }
    requires below { IsTypeNumberBelow (length (book.now.state.now).types) of }
    ensures { Writes result page.new (put (declared (names_of book.now).tags no_cv (type_for book.now of) (named_words (names_of book.now).tags (names_of book.now).name_of (static_class_of (graph_of book.now) number.0) number.0)) page.old) }
{
    let class = static_class(book.state, number);
    write_front(book, page, of)?;
    write_scoped(book, page, of, class, number)
}

/// Writes the declaration of a function with a type, behind its class where it is a member (8.3.5, 9.3).
#[tactic(auto, using(cxx_page::proofs::Put::put_append, crate::proofs::Typed::declared_as), unfolding(cxx_tree::specs::Held::meaning))]
pub(crate) fn write_declared_function(
    book: &Book<'_>,
    page: &mut Page,
    of: Option<TypeId>,
    number: FactId,
) -> Result<(), PlainFault>
    requires book { IsBook book.now }
    requires below { IsTypeNumberBelow (length (book.now.state.now).types) of }
    ensures { Writes result page.new (put (declared (names_of book.now).tags no_cv (type_for book.now of) (function_name_words (names_of book.now) (graph_of book.now) number.0)) page.old) }
{
    let declaring = class_declaring(book.state, number);
    write_front(book, page, of)?;
    write_scoped(book, page, of, declaring, number)
}

/// Writes the name of a function, behind its class where it is a member (9.3).
#[tactic(auto, using(cxx_page::proofs::Put::put_append), unfolding(cxx_tree::specs::Held::meaning))]
pub(crate) fn write_function_name(
    book: &Book<'_>,
    page: &mut Page,
    number: FactId,
) -> Result<(), PlainFault>
    requires { IsBook book.now }
    ensures { Writes result page.new (put (function_name_words (names_of book.now) (graph_of book.now) number.0) page.old) }
{
    let class = class_declaring(book.state, number);
    write_scope(book, page, class)?;
    write_name(book, page, number)
}
