//! The lines of enumerations (7.2).
ghost use Rattle.std.specs.Prelude.{◌≡◌, true, List, [], ◌∷◌, ◌++◌, codes, map};
ghost use Rattle.std.specs.List.{slice_get};
ghost use Rattle.cxx_model.specs.Facts.Declarations.{declares_at};
ghost use Rattle.cxx_model.specs.Types.Trees.{CxxType};
ghost use Rattle.cxx_page.specs.Sheets.{Writes, put};
ghost use Rattle.cxx_page.specs.Sides.{comma_unless};
ghost use Rattle.cxx_phrase_text.specs.Listed.{listed_words};
ghost use Rattle.cxx_reading.specs.Plain.{enumeration_words};
ghost use Rattle.cxx_reading.specs.Words.{keyword_word, name_word, value_words};
ghost use Rattle.cxx_form.specs.Books.{facts_of, names_of, IsBook};
ghost use Rattle.cxx_form.specs.Parts.{enumeration_end, enumeration_front, enumeration_parts, enumerator_at, value_by, value_found};
ghost use Rattle.cxx_form.specs.Views.{facts_in};

use crate::book::Book;
use crate::facts::find;
use crate::words::{write_comma_unless, write_name};
use cxx_model::{Entity, EnumId, FactId};
use cxx_page::{Page, PlainFault, write_value};
use cxx_reading::Role;
use cxx_tree::State;

fn value_in(what: Entity) -> i128
    ensures { (types : List CxxType) → result ≡ value_by (declares_at types what) }
{
    match what {
        Entity::Enumerator { value, .. } => value,
        _ => 0,
    }
}

// The value of an enumerator.
fn value_at(state: &State, number: FactId) -> i128
    ensures { result ≡ value_found (slice_get (facts_in state.now) number.0) }
{
    let Some(fact) = find(state, number) else {
        return 0;
    };
    value_in(fact.what)
}

// Writes `=` and a value.
#[tactic(auto, using(cxx_page::proofs::Put::put_more))]
fn write_equals(page: &mut Page, value: i128) -> Result<(), PlainFault>
    ensures { Writes result page.new (put (keyword_word (codes "=") ∷ value_words value) page.old) }
{
    page.word(Role::Alone, b"=")?;
    write_value(page, value)
}

// Writes `=` and the value of an enumerator.
fn write_its_value(book: &Book<'_>, page: &mut Page, number: FactId) -> Result<(), PlainFault>
    ensures { Writes result page.new (put (keyword_word (codes "=") ∷ value_words (value_found (slice_get (facts_of book.now) number.0))) page.old) }
{
    write_equals(page, value_at(book.state, number))
}

// Writes an enumerator with its value.
#[tactic(auto, using(cxx_page::proofs::Put::put_more), unfolding(crate::specs::Parts::enumerator_at))]
fn write_enumerator(book: &Book<'_>, page: &mut Page, number: FactId) -> Result<(), PlainFault>
    requires { IsBook book.now }
    ensures { Writes result page.new (put (enumerator_at book.now number) page.old) }
{
    write_name(book, page, number)?;
    write_its_value(book, page, number)
}

// Writes an enumerator behind the comma before it.
#[tactic(auto, using(cxx_page::proofs::Put::put_append))]
fn write_next(
    book: &Book<'_>,
    page: &mut Page,
    is_first: bool,
    number: FactId,
) -> Result<(), PlainFault>
    requires { IsBook book.now }
    ensures { Writes result page.new (put (comma_unless is_first ++ enumerator_at book.now number) page.old) }
{
    write_comma_unless(page, is_first)?;
    write_enumerator(book, page, number)
}

// Writes enumerators with commas between them.
fn write_enumerators(book: &Book<'_>, page: &mut Page, numbers: &[FactId]) -> Result<(), PlainFault>
    requires { IsBook book.now }
    ensures { Writes result page.new (put (listed_words true (map (enumerator_at book.now) numbers.now)) page.old) }
{
    let mut is_first = true;
    for number in numbers {
        write_next(book, page, is_first, *number)?;
        is_first = false;
    }
    Ok(())
}

#[tactic(auto, using(cxx_page::proofs::Put::put_more))]
fn write_opened(book: &Book<'_>, page: &mut Page, number: FactId) -> Result<(), PlainFault>
    requires { IsBook book.now }
    ensures { Writes result page.new (put (name_word ((names_of book.now).name_of number.0) ∷ keyword_word (codes "{") ∷ []) page.old) }
{
    write_name(book, page, number)?;
    page.word(Role::Alone, b"{")
}

// Writes what stands before the enumerators.
#[tactic(auto, using(cxx_page::proofs::Put::put_more), unfolding(crate::specs::Parts::enumeration_front))]
fn write_front(book: &Book<'_>, page: &mut Page, number: FactId) -> Result<(), PlainFault>
    requires { IsBook book.now }
    ensures { Writes result page.new (put (enumeration_front (names_of book.now) number.0) page.old) }
{
    page.word(Role::Alone, b"enum")?;
    write_opened(book, page, number)
}

// Writes what stands behind them.
#[tactic(auto, using(cxx_page::proofs::Put::put_more), unfolding(crate::specs::Parts::enumeration_end))]
fn write_end(page: &mut Page) -> Result<(), PlainFault>
    ensures { Writes result page.new (put enumeration_end page.old) }
{
    page.word(Role::Alone, b"}")?;
    page.word(Role::Follows, b";")
}

#[tactic(auto, using(cxx_page::proofs::Put::put_append))]
fn write_closed(book: &Book<'_>, page: &mut Page, numbers: &[FactId]) -> Result<(), PlainFault>
    requires { IsBook book.now }
    ensures { Writes result page.new (put (listed_words true (map (enumerator_at book.now) numbers.now) ++ enumeration_end) page.old) }
{
    write_enumerators(book, page, numbers)?;
    write_end(page)
}

#[tactic(auto, using(cxx_page::proofs::Put::put_append), unfolding(crate::specs::Parts::enumeration_parts))]
fn write_parts(
    book: &Book<'_>,
    page: &mut Page,
    numbers: &[FactId],
    number: FactId,
) -> Result<(), PlainFault>
    requires { IsBook book.now }
    ensures { Writes result page.new (put (enumeration_parts book.now numbers.now number.0) page.old) }
{
    write_front(book, page, number)?;
    write_closed(book, page, numbers)
}

/// Writes the words of an enumeration, each enumerator with its value.
pub(crate) fn write_enumeration(
    book: &Book<'_>,
    page: &mut Page,
    named: EnumId,
    number: FactId,
) -> Result<(), PlainFault>
    requires { IsBook book.now }
    ensures { Writes result page.new (put (enumeration_words (names_of book.now) (facts_of book.now) named.0 number.0) page.old) }
{
    write_parts(book, page, book.enumerators.row(named.0), number)
}
