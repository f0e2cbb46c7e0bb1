//! The bases of a class, behind its name (10).
ghost use Rattle.std.specs.Prelude.{◌≡◌, ◌<◌, List, ℕ, [], ◌∷◌, ◌++◌, true, codes, length, map, IfSome};
ghost use Rattle.std.specs.List.{slice_get};
ghost use Rattle.cxx_model.specs.Facts.Declarations.{declares_at};
ghost use Rattle.cxx_model.specs.Facts.Graph.{Graph as GraphOf};
ghost use Rattle.cxx_model.specs.Types.Trees.{CxxType};
ghost use Rattle.cxx_page.specs.Sheets.{Writes, put};
ghost use Rattle.cxx_page.specs.Sides.{comma_unless};
ghost use Rattle.cxx_page.specs.Views.{tags_of};
ghost use Rattle.cxx_phrase_text.specs.Listed.{listed_words};
ghost use Rattle.cxx_reading.specs.Words.{keyword_word, type_name_word};
ghost use Rattle.cxx_form.specs.Books.{names_of, IsBook};
ghost use Rattle.cxx_form.specs.Order.{class_of_fact};
ghost use Rattle.cxx_form.specs.Parts.{base_at, base_row, bases_unless, parent_by, parent_found, parent_words, IsParentThere};
ghost use Rattle.cxx_form.specs.Parts as parts;
ghost use Rattle.cxx_form.specs.Views.{facts_in};

use crate::book::Book;
use crate::enumerations::class_of;
use crate::facts::find;
use crate::heads::is_none;
use crate::words::write_comma_unless;
use cxx_model::{ClassId, Entity, FactId};
use cxx_page::{Page, PlainFault, Tags};
use cxx_reading::Role;
use cxx_tree::State;

// The class that is declared.
fn class_at(state: &State, number: FactId) -> Option<u32>
    ensures { result ≡ class_of_fact (slice_get (facts_in state.now) number.0) }
{
    let Some(fact) = find(state, number) else {
        return None;
    };
    class_of(fact.what)
}

/// The declarations of the bases of a class, in order, by a declaration of the class.
pub(crate) fn bases(state: &State, number: FactId) -> &[FactId]
    ensures { result.now ≡ base_row (state.now).graph.facts (class_of_fact (slice_get (facts_in state.now) number.0)) }
{
    match class_at(state, number) {
        Some(class) => state.graph().ancestors(ClassId(class)),
        None => &[],
    }
}

// The class that is named as a base.
fn parent_in(what: Entity) -> Option<u32>
    ensures is { (types : List CxxType) → result ≡ parent_by (declares_at types what) }
    ensures below { (graph : GraphOf) → IsParentThere graph what → IfSome result (λ class. class < length graph.classes) }
{
    match what {
        Entity::Ancestor { parent, .. } => Some(parent.0),
        _ => None,
    }
}

// The class that a declaration names as a base.
fn parent_at(state: &State, number: FactId) -> Option<u32>
    ensures is { result ≡ parent_found (slice_get (facts_in state.now) number.0) }
    ensures below { IfSome result (λ class. class < length (state.now).graph.classes) }
{
    let Some(fact) = find(state, number) else {
        return None;
    };
    state.graph().in_range();
    parent_in(fact.what)
}

// The printed name of a class.
fn class_name(tags: &Tags, class: u32) -> &[u8]
    ensures { result.now ≡ (tags_of tags.now).class_name class }
{
    match tags.classes.as_slice().get(class as usize) {
        Some(text) => text.as_slice(),
        None => &[],
    }
}

/// Writes the printed name of a class.
pub(crate) fn write_class(book: &Book<'_>, page: &mut Page, class: u32) -> Result<(), PlainFault>
    requires book { IsBook book.now }
    requires below { class < length (book.now.state.now).graph.classes }
    ensures { Writes result page.new (put (type_name_word ((names_of book.now).tags.class_name class) ∷ []) page.old) }
{
    page.word(Role::Alone, class_name(book.tags, class))
}

#[tactic(auto, using(cxx_page::proofs::Put::put_none))]
fn write_parent(book: &Book<'_>, page: &mut Page, class: Option<u32>) -> Result<(), PlainFault>
    requires book { IsBook book.now }
    requires below { IfSome class (λ n. n < length (book.now.state.now).graph.classes) }
    ensures { Writes result page.new (put (parent_words (names_of book.now) class) page.old) }
{
    let Some(class) = class else {
        return Ok(());
    };
    write_class(book, page, class)
}

// Writes the name of a base.
#[tactic(auto, unfolding(crate::specs::Parts::base_at))]
fn write_base(book: &Book<'_>, page: &mut Page, number: FactId) -> Result<(), PlainFault>
    requires { IsBook book.now }
    ensures { Writes result page.new (put (base_at book.now number) page.old) }
{
    write_parent(book, page, parent_at(book.state, number))
}

// Writes a base behind the comma before it.
#[tactic(auto, using(cxx_page::proofs::Put::put_append))]
fn write_next(
    book: &Book<'_>,
    page: &mut Page,
    is_first: bool,
    number: FactId,
) -> Result<(), PlainFault>
    requires { IsBook book.now }
    ensures { Writes result page.new (put (comma_unless is_first ++ base_at book.now number) page.old) }
{
    write_comma_unless(page, is_first)?;
    write_base(book, page, number)
}

// Writes bases with commas between them.
fn write_listed(book: &Book<'_>, page: &mut Page, numbers: &[FactId]) -> Result<(), PlainFault>
    requires { IsBook book.now }
    ensures { Writes result page.new (put (listed_words true (map (base_at book.now) numbers.now)) page.old) }
{
    let mut is_first = true;
    for number in numbers {
        write_next(book, page, is_first, *number)?;
        is_first = false;
    }
    Ok(())
}

// Writes them behind the colon.
#[tactic(auto, using(cxx_page::proofs::Put::put_more))]
fn write_derived(book: &Book<'_>, page: &mut Page, numbers: &[FactId]) -> Result<(), PlainFault>
    requires { IsBook book.now }
    ensures { Writes result page.new (put (keyword_word (codes ":") ∷ listed_words true (map (base_at book.now) numbers.now)) page.old) }
{
    page.word(Role::Alone, b":")?;
    write_listed(book, page, numbers)
}

#[tactic(auto, using(cxx_page::proofs::Put::put_none))]
fn write_unless(
    book: &Book<'_>,
    page: &mut Page,
    numbers: &[FactId],
    is_none: bool,
) -> Result<(), PlainFault>
    requires { IsBook book.now }
    ensures { Writes result page.new (put (bases_unless book.now numbers.now is_none) page.old) }
{
    if is_none {
        return Ok(());
    }
    write_derived(book, page, numbers)
}

/// Writes the bases of a class behind a colon, where there are any.
pub(crate) fn write_bases(
    book: &Book<'_>,
    page: &mut Page,
    numbers: &[FactId],
) -> Result<(), PlainFault>
    requires { IsBook book.now }
    ensures { Writes result page.new (put (bases_unless book.now numbers.now (parts.is_none numbers.now)) page.old) }
{
    write_unless(book, page, numbers, is_none(numbers))
}
