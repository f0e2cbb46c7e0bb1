//! The lines of a plain form, one behind another.
ghost use Rattle.std.specs.Prelude.{◌≡◌, ◌<◌, [], ◌∷◌, ◌++◌, flat_map, length};
ghost use Rattle.std.specs.List.{slice_get};
ghost use Rattle.cxx_model.specs.Facts.Declarations.{declares_at, type_of_option};
ghost use Rattle.cxx_model.specs.Facts.Fitted.{IsEntityBelow, IsTypeNumberBelow};
ghost use Rattle.cxx_page.specs.Sheets.{Writes, put, put_lines};
ghost use Rattle.cxx_reading.specs.Plain.{enumeration_words, function_words, type_of_function, type_or_void};
ghost use Rattle.cxx_form.specs.Books.{facts_of, graph_of, names_of, trees_of, IsBook};
ghost use Rattle.cxx_form.specs.Called.{called_words};
ghost use Rattle.cxx_form.specs.Functions.{function_type_by};
ghost use Rattle.cxx_form.specs.Lines.{AreLinesBelow, IsLineBelow};
ghost use Rattle.cxx_form.specs.Parts.{lines_written};
ghost use Rattle.cxx_form.specs.Text.{object_words};
ghost use Rattle.cxx_form.specs.Views.{facts_in};
ghost use Rattle.cxx_tree.specs.Arena.{tree_in};
ghost use Rattle.std.specs.Prelude.{ℕ, List};
ghost use Rattle.cxx_model.specs.Types.Trees.{CxxType};

use crate::book::Book;
use crate::classes::{write_class_definition, write_class_line};
use crate::definitions::write_definition;
use crate::enumerators::write_enumeration;
use crate::facts::find;
use crate::lines::Line;
use crate::objects::write_object;
use crate::outside::write_declared_function;
use crate::words::write_declared;
use cxx_model::{Entity, EnumId, FactId, TreeId, TypeId};
use cxx_page::{Page, PlainFault};
use cxx_reading::Role;
use cxx_tree::State;
use std::alloc::Global;

fn type_in(what: Entity) -> Option<TypeId>
    ensures is { (types : List CxxType) → type_or_void (type_of_option types result) ≡ function_type_by (declares_at types what) }
    ensures below { (count : ℕ) → IsEntityBelow count what → IsTypeNumberBelow count result }
{
    match what {
        Entity::Function { of, .. } => Some(of),
        _ => None,
    }
}

// The type of a function, by its declaration.
fn function_type(state: &State, number: FactId) -> Option<TypeId>
    ensures is { type_or_void (type_of_option (state.now).types result) ≡ type_of_function (slice_get (facts_in state.now) number.0) }
    ensures below { IsTypeNumberBelow (length (state.now).types) result }
{
    let Some(fact) = find(state, number) else {
        return None;
    };
    type_in(fact.what)
}

#[tactic(auto, using(cxx_page::proofs::Put::put_append))]
fn write_typed(
    book: &Book<'_>,
    page: &mut Page,
    of: Option<TypeId>,
    number: FactId,
) -> Result<(), PlainFault>
    requires book { IsBook book.now }
    requires below { IsTypeNumberBelow (length (book.now.state.now).types) of }
    requires is { type_or_void (type_of_option (book.now.state.now).types of) ≡ type_of_function (slice_get (facts_of book.now) number.0) }
    ensures { Writes result page.new (put (function_words (names_of book.now) (facts_of book.now) number.0) page.old) }
{
    write_declared(book, page, of, number)?;
    page.word(Role::Follows, b";")
}

// Writes the words of a function (8.3.5).
fn write_function(book: &Book<'_>, page: &mut Page, number: FactId) -> Result<(), PlainFault>
    requires { IsBook book.now }
    ensures { Writes result page.new (put (function_words (names_of book.now) (facts_of book.now) number.0) page.old) }
{
    write_typed(book, page, function_type(book.state, number), number)
}

#[tactic(auto, using(cxx_page::proofs::Put::put_append))]
fn write_typed_called(
    book: &Book<'_>,
    page: &mut Page,
    of: Option<TypeId>,
    number: FactId,
) -> Result<(), PlainFault>
    requires book { IsBook book.now }
    requires below { IsTypeNumberBelow (length (book.now.state.now).types) of }
    requires is { type_or_void (type_of_option (book.now.state.now).types of) ≡ type_of_function (slice_get (facts_of book.now) number.0) }
    ensures { Writes result page.new (put (called_words (names_of book.now) (graph_of book.now) number.0) page.old) }
{
    write_declared_function(book, page, of, number)?;
    page.word(Role::Follows, b";")
}

/// Writes the words of a function that is called, whose name stands behind its class (8.3.5, 9.3).
pub(crate) fn write_called(
    book: &Book<'_>,
    page: &mut Page,
    number: FactId,
) -> Result<(), PlainFault>
    requires { IsBook book.now }
    ensures { Writes result page.new (put (called_words (names_of book.now) (graph_of book.now) number.0) page.old) }
{
    write_typed_called(book, page, function_type(book.state, number), number)
}

// Writes the line of an enumeration.
#[tactic(auto, using(crate::proofs::Listing::one_line), unfolding(cxx_page::specs::Sheets::put_line))]
fn write_enumeration_line(
    book: &Book<'_>,
    page: &mut Page,
    named: EnumId,
    number: FactId,
) -> Result<(), PlainFault>
    requires { IsBook book.now }
    ensures { Writes result page.new (put_lines (enumeration_words (names_of book.now) (facts_of book.now) named.0 number.0 ∷ []) page.old) }
{
    write_enumeration(book, page, named, number)?;
    page.end_line()
}

// Writes the line of a function.
#[tactic(auto, using(crate::proofs::Listing::one_line), unfolding(cxx_page::specs::Sheets::put_line))]
fn write_function_line(book: &Book<'_>, page: &mut Page, number: FactId) -> Result<(), PlainFault>
    requires { IsBook book.now }
    ensures { Writes result page.new (put_lines (function_words (names_of book.now) (facts_of book.now) number.0 ∷ []) page.old) }
{
    write_function(book, page, number)?;
    page.end_line()
}

// Writes the line of a declaration of an object.
#[tactic(auto, using(crate::proofs::Listing::one_line), unfolding(cxx_page::specs::Sheets::put_line))]
fn write_object_line(
    book: &Book<'_>,
    page: &mut Page,
    tree: TreeId,
    number: FactId,
) -> Result<(), PlainFault>
    requires book { IsBook book.now }
    requires known { tree.0 < length (trees_of book.now) }
    ensures { Writes result page.new (put_lines (object_words (names_of book.now) (graph_of book.now) (tree_in (trees_of book.now) tree.0) number.0 ∷ []) page.old) }
{
    write_object(book, page, tree, number)?;
    page.end_line()
}

#[tactic(auto, unfolding(crate::specs::Parts::lines_written))]
fn write_line(alloc: Global, book: &Book<'_>, page: &mut Page, line: Line) -> Result<(), PlainFault>
    requires book { IsBook book.now }
    requires below { IsLineBelow (length (trees_of book.now)) line }
    ensures { Writes result page.new (put_lines (lines_written book.now line) page.old) }
{
    match line {
        Line::Class(number) => write_class_line(book, page, number),
        Line::Enumeration(named, number) => write_enumeration_line(book, page, named, number),
        Line::ClassDefinition(number, scope) => write_class_definition(book, page, number, scope),
        Line::Function(number) => write_function_line(book, page, number),
        Line::Object(tree, number) => write_object_line(book, page, tree, number),
        Line::Definition(tree) => write_definition(alloc, book, page, tree),
    }
}

/// Writes the lines of a plain form.
pub(crate) fn write_lines(
    alloc: Global,
    book: &Book<'_>,
    page: &mut Page,
    lines: &[Line],
) -> Result<(), PlainFault>
    requires book { IsBook book.now }
    requires below { AreLinesBelow (length (trees_of book.now)) lines.now }
    ensures { Writes result page.new (put_lines (flat_map (lines_written book.now) lines.now) page.old) }
{
    for line in lines {
        write_line(alloc, book, page, *line)?;
    }
    Ok(())
}
