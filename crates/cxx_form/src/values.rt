//! The values that classes give to their static constants (9.4.2), and the 0 of pure functions (10.4).
ghost use Rattle.std.specs.Prelude.{◌≡◌, ◌<◌, [], ◌∷◌, ◌++◌, codes, length, List};
ghost use Rattle.std.specs.List.{slice_get};
ghost use Rattle.cxx_model.specs.Facts.Declarations.{declares_at, type_of_option};
ghost use Rattle.cxx_model.specs.Facts.Fitted.{IsTypeNumberBelow};
ghost use Rattle.cxx_model.specs.Types.Numbers.{type_at};
ghost use Rattle.cxx_model.specs.Types.Trees.{unqualified, CxxType};
ghost use Rattle.cxx_page.specs.Sheets.{Writes, put};
ghost use Rattle.cxx_phrase_text.specs.Phrases.{cast_words};
ghost use Rattle.cxx_reading.specs.Declarators.{no_cv};
ghost use Rattle.cxx_reading.specs.Plain.{type_or_void};
ghost use Rattle.cxx_reading.specs.Words.{close_word, declared, greater_word, keyword_word, less_word, open_word, semicolon_word, value_words};
ghost use Rattle.cxx_form.specs.Books.{facts_of, names_of, type_for, IsBook};
ghost use Rattle.cxx_form.specs.Parts as parts;
ghost use Rattle.cxx_form.specs.Text.{as_enumeration as as_enumeration_of, constant_as, constant_words, is_pure_by, is_pure_of, value_behind as value_words_behind, value_if as value_if_of, value_of_again, value_of_again_by, zero_if as zero_if_pure};
ghost use Rattle.cxx_form.specs.Views.{facts_in};

use crate::book::Book;
use crate::facts::find;
use crate::words::write_alone;
use cxx_model::{Entity, FactId, TypeId, TypeNode};
use cxx_page::{Page, PlainFault, write_value};
use cxx_reading::Role;
use cxx_tree::State;
use cxx_types::TypeTable;

// ---- which value

fn value_if(number: FactId, first: Option<FactId>, value: Option<i128>) -> Option<i128>
    ensures { result ≡ value_if_of number.0 first value }
{
    let Some(first) = first else {
        return None;
    };
    if first.0 == number.0 { value } else { None }
}

fn value_again_in(number: FactId, what: Entity) -> Option<i128>
    ensures { (types : List CxxType) → result ≡ value_of_again_by number.0 (declares_at types what) }
{
    match what {
        Entity::Object { value, first, .. } => value_if(number, first, value),
        _ => None,
    }
}

// The value of a declaration, where it is a further one of the object with a declaration.
fn value_again(state: &State, number: FactId, next: FactId) -> Option<i128>
    ensures { result ≡ value_of_again number.0 (slice_get (facts_in state.now) next.0) }
{
    match find(state, next) {
        Some(fact) => value_again_in(number, fact.what),
        None => None,
    }
}

// The value of a static constant, by the declarations behind it.
fn value_behind(book: &Book<'_>, number: FactId, others: &[FactId]) -> Option<i128>
    ensures { result ≡ parts.value_again book.now number others.now }
{
    match others {
        [] => None,
        [next, ..] => value_again(book.state, number, *next),
    }
}

fn is_pure_in(what: Entity) -> bool
    ensures { (types : List CxxType) → result ≡ is_pure_by (declares_at types what) }
{
    match what {
        Entity::Function { flags, .. } => flags.is_pure,
        _ => false,
    }
}

// Whether a function is pure (10.4).
fn is_pure(state: &State, number: FactId) -> bool
    ensures { result ≡ is_pure_of (slice_get (facts_in state.now) number.0) }
{
    match find(state, number) {
        Some(fact) => is_pure_in(fact.what),
        None => false,
    }
}

// The 0 of a pure function, and else a value.
fn zero_if(is_pure: bool, value: Option<i128>) -> Option<i128>
    ensures { result ≡ zero_if_pure is_pure value }
{
    if is_pure { Some(0) } else { value }
}

/// The value that a class gives to a member, by the declarations behind it.
pub(crate) fn value_next(book: &Book<'_>, number: FactId, others: &[FactId]) -> Option<i128>
    ensures { result ≡ parts.value_next book.now number others.now }
{
    zero_if(
        is_pure(book.state, number),
        value_behind(book, number, others),
    )
}

// ---- enumerations (7.2)

fn as_enumeration(types: &TypeTable, number: TypeId) -> Option<TypeId>
    requires { number.0 < length types.now }
    ensures is { type_of_option types.now result ≡ as_enumeration_of (type_at types.now number.0) }
    ensures below { IsTypeNumberBelow (length types.now) result }
{
    match types.node(number) {
        TypeNode::Enum(_) => Some(number),
        _ => None,
    }
}

// A type without its cv words, where it is an enumeration.
fn enumeration_by(types: &TypeTable, number: TypeId) -> Option<TypeId>
    requires { number.0 < length types.now }
    ensures is { type_of_option types.now result ≡ as_enumeration_of (unqualified (type_at types.now number.0)) }
    ensures below { IsTypeNumberBelow (length types.now) result }
{
    match types.node(number) {
        TypeNode::Qualified(_, of) => as_enumeration(types, *of),
        _ => as_enumeration(types, number),
    }
}

fn enumeration(types: &TypeTable, of: Option<TypeId>) -> Option<TypeId>
    requires { IsTypeNumberBelow (length types.now) of }
    ensures is { type_of_option types.now result ≡ as_enumeration_of (unqualified (type_or_void (type_of_option types.now of))) }
    ensures below { IsTypeNumberBelow (length types.now) result }
{
    let Some(number) = of else {
        return None;
    };
    enumeration_by(types, number)
}

// ---- its words

#[tactic(auto, using(cxx_page::proofs::Put::put_append))]
fn write_closed(page: &mut Page, value: i128) -> Result<(), PlainFault>
    ensures { Writes result page.new (put (value_words value ++ close_word ∷ []) page.old) }
{
    write_value(page, value)?;
    page.word(Role::Closes, b")")
}

#[tactic(auto, using(cxx_page::proofs::Put::put_more))]
fn write_between(page: &mut Page) -> Result<(), PlainFault>
    ensures { Writes result page.new (put (greater_word ∷ open_word ∷ []) page.old) }
{
    page.word(Role::Closes, b">")?;
    page.word(Role::Opens, b"(")
}

// Writes what stands behind the type of a cast (5.2.9).
#[tactic(auto, using(crate::proofs::Handed::put_two))]
fn write_operand(page: &mut Page, value: i128) -> Result<(), PlainFault>
    ensures { Writes result page.new (put (greater_word ∷ (open_word ∷ (value_words value ++ close_word ∷ []))) page.old) }
{
    write_between(page)?;
    write_closed(page, value)
}

#[tactic(auto, using(cxx_page::proofs::Put::put_append))]
fn write_type_and_operand(
    book: &Book<'_>,
    page: &mut Page,
    of: TypeId,
    value: i128,
) -> Result<(), PlainFault>
    requires book { IsBook book.now }
    requires below { of.0 < length (book.now.state.now).types }
    ensures { Writes result page.new (put (declared (names_of book.now).tags no_cv (type_at (book.now.state.now).types of.0) [] ++ (greater_word ∷ (open_word ∷ (value_words value ++ close_word ∷ [])))) page.old) }
{
    write_alone(book, page, Some(of))?;
    write_operand(page, value)
}

#[tactic(auto, using(cxx_page::proofs::Put::put_more))]
fn write_opened(page: &mut Page) -> Result<(), PlainFault>
    ensures { Writes result page.new (put (keyword_word (codes "static_cast") ∷ less_word ∷ []) page.old) }
{
    page.word(Role::Alone, b"static_cast")?;
    page.word(Role::Joins, b"<")
}

#[tactic(auto, using(crate::proofs::Handed::put_two))]
fn write_cast(book: &Book<'_>, page: &mut Page, of: TypeId, value: i128) -> Result<(), PlainFault>
    requires book { IsBook book.now }
    requires below { of.0 < length (book.now.state.now).types }
    ensures { Writes result page.new (put (cast_words (names_of book.now).tags (codes "static_cast") (type_at (book.now.state.now).types of.0) (value_words value)) page.old) }
{
    write_opened(page)?;
    write_type_and_operand(book, page, of, value)
}

// Writes a value, cast to the enumeration whose constant it is.
fn write_constant_as(
    book: &Book<'_>,
    page: &mut Page,
    enumeration: Option<TypeId>,
    value: i128,
) -> Result<(), PlainFault>
    requires book { IsBook book.now }
    requires below { IsTypeNumberBelow (length (book.now.state.now).types) enumeration }
    ensures { Writes result page.new (put (constant_as (names_of book.now) (type_of_option (book.now.state.now).types enumeration) value) page.old) }
{
    match enumeration {
        Some(of) => write_cast(book, page, of, value),
        None => write_value(page, value),
    }
}

// Writes a constant of a type.
fn write_constant(
    book: &Book<'_>,
    page: &mut Page,
    of: Option<TypeId>,
    value: i128,
) -> Result<(), PlainFault>
    requires book { IsBook book.now }
    requires below { IsTypeNumberBelow (length (book.now.state.now).types) of }
    ensures { Writes result page.new (put (constant_words (names_of book.now) (type_for book.now of) value) page.old) }
{
    write_constant_as(book, page, enumeration(book.state.types(), of), value)
}

#[tactic(auto, using(cxx_page::proofs::Put::put_more))]
fn write_given(
    book: &Book<'_>,
    page: &mut Page,
    of: Option<TypeId>,
    value: i128,
) -> Result<(), PlainFault>
    requires book { IsBook book.now }
    requires below { IsTypeNumberBelow (length (book.now.state.now).types) of }
    ensures { Writes result page.new (put (keyword_word (codes "=") ∷ constant_words (names_of book.now) (type_for book.now of) value) page.old) }
{
    page.word(Role::Alone, b"=")?;
    write_constant(book, page, of, value)
}

// Writes the value of a member with a type, where its class gives one.
#[tactic(auto, using(cxx_page::proofs::Put::put_none))]
fn write_value_behind(
    book: &Book<'_>,
    page: &mut Page,
    of: Option<TypeId>,
    value: Option<i128>,
) -> Result<(), PlainFault>
    requires book { IsBook book.now }
    requires below { IsTypeNumberBelow (length (book.now.state.now).types) of }
    ensures { Writes result page.new (put (value_words_behind (names_of book.now) (type_for book.now of) value) page.old) }
{
    let Some(value) = value else {
        return Ok(());
    };
    write_given(book, page, of, value)
}

/// Writes it, and the semicolon behind it.
#[tactic(auto, using(cxx_page::proofs::Put::put_append))]
pub(crate) fn write_value_end(
    book: &Book<'_>,
    page: &mut Page,
    of: Option<TypeId>,
    value: Option<i128>,
) -> Result<(), PlainFault>
    requires book { IsBook book.now }
    requires below { IsTypeNumberBelow (length (book.now.state.now).types) of }
    ensures { Writes result page.new (put (value_words_behind (names_of book.now) (type_for book.now of) value ++ semicolon_word ∷ []) page.old) }
{
    write_value_behind(book, page, of, value)?;
    page.word(Role::Follows, b";")
}
