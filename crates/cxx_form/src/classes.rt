//! The lines of classes (clause 9).
ghost use Rattle.std.specs.Prelude.{◌≡◌, [], ◌∷◌, ◌++◌, length, List, Some, ℕ};
ghost use Rattle.std.specs.List.{slice_get};
ghost use Rattle.cxx_model.specs.declared.facts.Access.{Access};
ghost use Rattle.cxx_model.specs.declared.place.Place.{Place};
ghost use Rattle.cxx_model.specs.Facts.Declarations.{declares_at, type_of_option, CxxName};
ghost use Rattle.cxx_model.specs.Facts.Fitted.{IsTypeNumberBelow};
ghost use Rattle.cxx_model.specs.Types.Trees.{CxxType};
ghost use Rattle.cxx_page.specs.Sheets.{Writes, put, put_line, put_lines};
ghost use Rattle.cxx_reading.specs.Plain.{type_or_void};
ghost use Rattle.cxx_reading.specs.Specifiers.{class_key};
ghost use Rattle.cxx_reading.specs.Words.{name_word};
ghost use Rattle.cxx_statement_text.specs.Statements.{indent, open_brace};
ghost use Rattle.cxx_form.specs.Books.{facts_of, names_of, IsBook};
ghost use Rattle.cxx_form.specs.Definitions.{object_type as object_type_of};
ghost use Rattle.cxx_form.specs.Parts.{bases_unless, class_parts, front_parts, is_none, member_at, member_if, members_at};
ghost use Rattle.cxx_form.specs.Text.{class_definition_words, class_end, class_front, class_key_of, class_words, is_mutable_by, is_mutable_of, is_static_by, is_static_kind, is_static_of, is_virtual_by, is_virtual_of, member_lines, member_words, mutable_words, nonstatic_words, plain_words, static_words, typed_words, virtual_words};
ghost use Rattle.cxx_form.specs.Views.{facts_in};

use crate::bases::{bases, write_bases};
use crate::book::Book;
use crate::facts::find;
use crate::heads::object_type;
use crate::members::is_first;
use crate::values::{value_next, write_value_end};
use crate::words::{write_declared, write_name};
use cxx_model::{Entity, FactId, MemberKind, ScopeId, TypeId};
use cxx_page::{Page, PlainFault};
use cxx_reading::Role;
use cxx_tree::State;

fn key_by(is_union: bool) -> &'static [u8]
    ensures { result.now ≡ class_key is_union }
{
    if is_union { b"union" } else { b"struct" }
}

fn key_in(what: Entity) -> &'static [u8]
    ensures { (types : List CxxType) (place : Place) (scope : ℕ) (name : CxxName) (rights : Access) → result.now ≡ class_key_of (Some (record { place = place; scope = scope; name = name; access = rights; what = declares_at types what })) }
{
    match what {
        Entity::Class { is_union, .. } => key_by(is_union),
        _ => key_by(false),
    }
}

// The key of a class, by its declaration.
fn key_at(state: &State, number: FactId) -> &'static [u8]
    ensures { result.now ≡ class_key_of (slice_get (facts_in state.now) number.0) }
{
    match find(state, number) {
        Some(fact) => key_in(fact.what),
        None => key_by(false),
    }
}

/// Writes the line of a class (9.1).
#[tactic(auto, using(crate::proofs::Listing::one_line, cxx_page::proofs::Put::put_more), unfolding(cxx_page::specs::Sheets::put_line))]
pub(crate) fn write_class_line(
    book: &Book<'_>,
    page: &mut Page,
    number: FactId,
) -> Result<(), PlainFault>
    requires { IsBook book.now }
    ensures { Writes result page.new (put_lines (class_words (names_of book.now) (facts_of book.now) number.0 ∷ []) page.old) }
{
    page.word(Role::Alone, key_at(book.state, number))?;
    write_name(book, page, number)?;
    page.word(Role::Follows, b";")?;
    page.end_line()
}

// ---- definitions (9.2)

// Writes the declaration of a member with a type.
#[tactic(auto, using(cxx_page::proofs::Put::put_append))]
fn write_typed(
    book: &Book<'_>,
    page: &mut Page,
    of: Option<TypeId>,
    number: FactId,
    value: Option<i128>,
) -> Result<(), PlainFault>
    requires book { IsBook book.now }
    requires below { IsTypeNumberBelow (length (book.now.state.now).types) of }
    requires is { type_or_void (type_of_option (book.now.state.now).types of) ≡ object_type_of (slice_get (facts_of book.now) number.0) }
    ensures { Writes result page.new (put (typed_words (names_of book.now) (facts_of book.now) number.0 value) page.old) }
{
    write_declared(book, page, of, number)?;
    write_value_end(book, page, of, value)
}

fn is_mutable_in(what: Entity) -> bool
    ensures { (types : List CxxType) → result ≡ is_mutable_by (declares_at types what) }
{
    match what {
        Entity::Object { is_mutable, .. } => is_mutable,
        _ => false,
    }
}

// Whether an object is mutable (7.1.1).
fn is_mutable(state: &State, number: FactId) -> bool
    ensures { result ≡ is_mutable_of (slice_get (facts_in state.now) number.0) }
{
    match find(state, number) {
        Some(fact) => is_mutable_in(fact.what),
        None => false,
    }
}

// Writes `mutable` where a member is.
#[tactic(auto, using(cxx_page::proofs::Put::put_none))]
fn write_mutable(page: &mut Page, is_mutable: bool) -> Result<(), PlainFault>
    ensures { Writes result page.new (put (mutable_words is_mutable) page.old) }
{
    if !is_mutable {
        return Ok(());
    }
    page.word(Role::Alone, b"mutable")
}

// Writes what stands behind that word.
fn write_type_and_name(
    book: &Book<'_>,
    page: &mut Page,
    number: FactId,
    value: Option<i128>,
) -> Result<(), PlainFault>
    requires { IsBook book.now }
    ensures { Writes result page.new (put (typed_words (names_of book.now) (facts_of book.now) number.0 value) page.old) }
{
    write_typed(book, page, object_type(book.state, number), number, value)
}

// Writes what stands behind `virtual`.
#[tactic(auto, using(cxx_page::proofs::Put::put_append))]
fn write_plain(
    book: &Book<'_>,
    page: &mut Page,
    number: FactId,
    value: Option<i128>,
) -> Result<(), PlainFault>
    requires { IsBook book.now }
    ensures { Writes result page.new (put (plain_words (names_of book.now) (facts_of book.now) number.0 value) page.old) }
{
    write_mutable(page, is_mutable(book.state, number))?;
    write_type_and_name(book, page, number, value)
}

fn is_virtual_in(what: Entity) -> bool
    ensures { (types : List CxxType) → result ≡ is_virtual_by (declares_at types what) }
{
    match what {
        Entity::Function { flags, .. } => flags.is_virtual,
        _ => false,
    }
}

// Whether a function is virtual (10.3).
fn is_virtual(state: &State, number: FactId) -> bool
    ensures { result ≡ is_virtual_of (slice_get (facts_in state.now) number.0) }
{
    match find(state, number) {
        Some(fact) => is_virtual_in(fact.what),
        None => false,
    }
}

// Writes `virtual` where a function is.
#[tactic(auto, using(cxx_page::proofs::Put::put_none))]
fn write_virtual(page: &mut Page, is_virtual: bool) -> Result<(), PlainFault>
    ensures { Writes result page.new (put (virtual_words is_virtual) page.old) }
{
    if !is_virtual {
        return Ok(());
    }
    page.word(Role::Alone, b"virtual")
}

// Writes what stands behind `static`.
#[tactic(auto, using(cxx_page::proofs::Put::put_append))]
fn write_nonstatic(
    book: &Book<'_>,
    page: &mut Page,
    number: FactId,
    value: Option<i128>,
) -> Result<(), PlainFault>
    requires { IsBook book.now }
    ensures { Writes result page.new (put (nonstatic_words (names_of book.now) (facts_of book.now) number.0 value) page.old) }
{
    write_virtual(page, is_virtual(book.state, number))?;
    write_plain(book, page, number, value)
}

fn is_static_kind(member: MemberKind) -> bool
    ensures { result ≡ is_static_kind member }
{
    match member {
        MemberKind::Static => true,
        _ => false,
    }
}

fn is_static_in(what: Entity) -> bool
    ensures { (types : List CxxType) → result ≡ is_static_by (declares_at types what) }
{
    match what {
        Entity::Object { member, .. } | Entity::Function { member, .. } => is_static_kind(member),
        _ => false,
    }
}

// Whether an object or a function is a static member (9.4).
fn is_static(state: &State, number: FactId) -> bool
    ensures { result ≡ is_static_of (slice_get (facts_in state.now) number.0) }
{
    match find(state, number) {
        Some(fact) => is_static_in(fact.what),
        None => false,
    }
}

// Writes `static` where a member is.
#[tactic(auto, using(cxx_page::proofs::Put::put_none))]
fn write_static(page: &mut Page, is_static: bool) -> Result<(), PlainFault>
    ensures { Writes result page.new (put (static_words is_static) page.old) }
{
    if !is_static {
        return Ok(());
    }
    page.word(Role::Alone, b"static")
}

#[tactic(auto, using(cxx_page::proofs::Put::put_append))]
fn write_declaration(
    book: &Book<'_>,
    page: &mut Page,
    number: FactId,
    value: Option<i128>,
) -> Result<(), PlainFault>
    requires { IsBook book.now }
    ensures { Writes result page.new (put (member_words (names_of book.now) (facts_of book.now) number.0 value) page.old) }
{
    write_static(page, is_static(book.state, number))?;
    write_nonstatic(book, page, number, value)
}

// Writes it behind two spaces.
#[tactic(auto, using(cxx_page::proofs::Put::put_more))]
fn write_indented(
    book: &Book<'_>,
    page: &mut Page,
    number: FactId,
    value: Option<i128>,
) -> Result<(), PlainFault>
    requires { IsBook book.now }
    ensures { Writes result page.new (put (indent 1 ++ member_words (names_of book.now) (facts_of book.now) number.0 value) page.old) }
{
    page.word(Role::Leads, b"  ")?;
    write_declaration(book, page, number, value)
}

// Writes the line of a member.
#[tactic(auto, using(crate::proofs::Listing::one_line), unfolding(cxx_page::specs::Sheets::put_line))]
fn write_member(
    book: &Book<'_>,
    page: &mut Page,
    number: FactId,
    value: Option<i128>,
) -> Result<(), PlainFault>
    requires { IsBook book.now }
    ensures { Writes result page.new (put_lines (member_lines (names_of book.now) (facts_of book.now) number.0 value) page.old) }
{
    write_indented(book, page, number, value)?;
    page.end_line()
}

#[tactic(auto, using(crate::proofs::Listing::no_lines))]
fn write_if(
    book: &Book<'_>,
    page: &mut Page,
    number: FactId,
    value: Option<i128>,
    is_member: bool,
) -> Result<(), PlainFault>
    requires { IsBook book.now }
    ensures { Writes result page.new (put_lines (member_if book.now number value is_member) page.old) }
{
    if !is_member {
        return Ok(());
    }
    write_member(book, page, number, value)
}

// Writes the line of a member where it is declared first.
fn write_first(
    book: &Book<'_>,
    page: &mut Page,
    number: FactId,
    value: Option<i128>,
) -> Result<(), PlainFault>
    requires { IsBook book.now }
    ensures { Writes result page.new (put_lines (member_at book.now number value) page.old) }
{
    write_if(book, page, number, value, is_first(book.state, number))
}

// Writes the lines of members. The declaration next to one says whether the class gives it a value.
fn write_members(book: &Book<'_>, page: &mut Page, numbers: &[FactId]) -> Result<(), PlainFault>
    requires { IsBook book.now }
    ensures { Writes result page.new (put_lines (members_at book.now numbers.now) page.old) }
{
    let mut left = numbers;
    while let [number, others @ ..] = left {
        write_first(book, page, *number, value_next(book, *number, others))?;
        left = others;
    }
    Ok(())
}

// Writes the last line.
#[tactic(auto, using(crate::proofs::Listing::one_line, cxx_page::proofs::Put::put_more), unfolding(cxx_page::specs::Sheets::put_line))]
fn write_end(page: &mut Page) -> Result<(), PlainFault>
    ensures { Writes result page.new (put_lines (class_end ∷ []) page.old) }
{
    page.word(Role::Alone, b"}")?;
    page.word(Role::Follows, b";")?;
    page.end_line()
}

#[tactic(auto, using(cxx_statement_text::proofs::Lining::lines_append))]
fn write_inner(book: &Book<'_>, page: &mut Page, numbers: &[FactId]) -> Result<(), PlainFault>
    requires { IsBook book.now }
    ensures { Writes result page.new (put_lines (members_at book.now numbers.now ++ class_end ∷ []) page.old) }
{
    write_members(book, page, numbers)?;
    write_end(page)
}

// Writes bases, and the brace behind them.
#[tactic(auto, using(cxx_page::proofs::Put::put_append))]
fn write_opened(book: &Book<'_>, page: &mut Page, bases: &[FactId]) -> Result<(), PlainFault>
    requires { IsBook book.now }
    ensures { Writes result page.new (put (bases_unless book.now bases.now (is_none bases.now) ++ open_brace ∷ []) page.old) }
{
    write_bases(book, page, bases)?;
    page.word(Role::Alone, b"{")
}

#[tactic(auto, using(cxx_page::proofs::Put::put_more), unfolding(cxx_page::specs::Sheets::put_line, crate::specs::Parts::front_parts))]
fn write_front_with(
    book: &Book<'_>,
    page: &mut Page,
    bases: &[FactId],
    number: FactId,
) -> Result<(), PlainFault>
    requires { IsBook book.now }
    ensures { Writes result page.new (put_line (front_parts book.now bases.now number.0) page.old) }
{
    page.word(Role::Alone, key_at(book.state, number))?;
    write_name(book, page, number)?;
    write_opened(book, page, bases)?;
    page.end_line()
}

// Writes the first line.
fn write_front(book: &Book<'_>, page: &mut Page, number: FactId) -> Result<(), PlainFault>
    requires { IsBook book.now }
    ensures { Writes result page.new (put_line (class_front (names_of book.now) (facts_of book.now) number.0) page.old) }
{
    write_front_with(book, page, bases(book.state, number), number)
}

#[tactic(auto, using(crate::proofs::Listing::line_then), unfolding(crate::specs::Parts::class_parts))]
fn write_parts(
    book: &Book<'_>,
    page: &mut Page,
    numbers: &[FactId],
    number: FactId,
) -> Result<(), PlainFault>
    requires { IsBook book.now }
    ensures { Writes result page.new (put_lines (class_parts book.now numbers.now number.0) page.old) }
{
    write_front(book, page, number)?;
    write_inner(book, page, numbers)
}

/// Writes the lines of the definition of a class, given its scope.
pub(crate) fn write_class_definition(
    book: &Book<'_>,
    page: &mut Page,
    number: FactId,
    scope: ScopeId,
) -> Result<(), PlainFault>
    requires { IsBook book.now }
    ensures { Writes result page.new (put_lines (class_definition_words (names_of book.now) (facts_of book.now) number.0 scope.0) page.old) }
{
    write_parts(book, page, book.parts.row(scope.0), number)
}
