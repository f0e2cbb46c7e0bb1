//! The heads of definitions of functions (8.4).
ghost use Rattle.std.specs.Prelude.{◌≡◌, ◌<◌, [], ◌∷◌, ◌++◌, ℕ, List, true, length, map, option_map, IfSome};
ghost use Rattle.std.specs.List.{slice_get};
ghost use Rattle.cxx_model.specs.Facts.Declarations.{declares_at, type_of_option};
ghost use Rattle.cxx_model.specs.Facts.Fitted.{IsEntityBelow, IsTypeNumberBelow};
ghost use Rattle.cxx_model.specs.Types.Numbers.{type_at};
ghost use Rattle.cxx_model.specs.Types.Trees.{CxxType};
ghost use Rattle.cxx_page.specs.Sheets.{Writes, put, put_line};
ghost use Rattle.cxx_page.specs.Sides.{back, comma_unless};
ghost use Rattle.cxx_page.specs.Views.{tags_of};
ghost use Rattle.cxx_phrase_text.specs.Listed.{listed_words};
ghost use Rattle.cxx_reading.specs.Declarators.{no_cv};
ghost use Rattle.cxx_reading.specs.Plain.{type_or_void};
ghost use Rattle.cxx_reading.specs.Words.{close_word, declared};
ghost use Rattle.cxx_tree.specs.Held.{tree, trees};
ghost use Rattle.cxx_form.specs.Books.{names_of, type_for, IsBook};
ghost use Rattle.cxx_form.specs.Definitions as definitions;
ghost use Rattle.cxx_form.specs.Parts as parts;
ghost use Rattle.cxx_form.specs.Parts.{dots_behind, head_at, list_at, named_list, parameter_at, worded_list};
ghost use Rattle.cxx_form.specs.Views.{facts_in};

use crate::behind::write_words_behind;
use crate::book::Book;
use crate::facts::find;
use crate::names::is_named;
use crate::outside::write_function_name;
use crate::words::{write_alone, write_back, write_comma_unless, write_declared, write_front};
use cxx_model::{Entity, FactId, TreeId, TypeId, TypeNode};
use cxx_page::{Page, PlainFault};
use cxx_reading::Role;
use cxx_tree::State;
use cxx_types::TypeTable;

// ---- parameters

fn object_type_in(what: Entity) -> Option<TypeId>
    ensures is { (types : List CxxType) → type_or_void (type_of_option types result) ≡ definitions.object_type_by (declares_at types what) }
    ensures below { (count : ℕ) → IsEntityBelow count what → IsTypeNumberBelow count result }
{
    match what {
        Entity::Object { of, .. } | Entity::Function { of, .. } => Some(of),
        _ => None,
    }
}

/// The type of a parameter or a member, by its declaration.
pub(crate) fn object_type(state: &State, number: FactId) -> Option<TypeId>
    ensures is { type_or_void (type_of_option (state.now).types result) ≡ definitions.object_type (slice_get (facts_in state.now) number.0) }
    ensures below { IsTypeNumberBelow (length (state.now).types) result }
{
    let Some(fact) = find(state, number) else {
        return None;
    };
    object_type_in(fact.what)
}

// Writes the declaration of a parameter that has a name, or of one that has none.
fn write_as(
    book: &Book<'_>,
    page: &mut Page,
    of: Option<TypeId>,
    number: FactId,
    is_named: bool,
) -> Result<(), PlainFault>
    requires book { IsBook book.now }
    requires below { IsTypeNumberBelow (length (book.now.state.now).types) of }
    ensures { Writes result page.new (put (declared (names_of book.now).tags no_cv (type_for book.now of) (parts.name_if book.now number is_named)) page.old) }
{
    if is_named {
        return write_declared(book, page, of, number);
    }
    write_alone(book, page, of)
}

// Writes a parameter.
fn write_parameter(book: &Book<'_>, page: &mut Page, number: FactId) -> Result<(), PlainFault>
    requires { IsBook book.now }
    ensures { Writes result page.new (put (parameter_at book.now number) page.old) }
{
    let of = object_type(book.state, number);
    write_as(book, page, of, number, is_named(book.state, number))
}

// Writes a parameter behind the comma before it.
#[tactic(auto, using(cxx_page::proofs::Put::put_append))]
fn write_next(
    book: &Book<'_>,
    page: &mut Page,
    is_first: bool,
    number: FactId,
) -> Result<(), PlainFault>
    requires { IsBook book.now }
    ensures { Writes result page.new (put (comma_unless is_first ++ parameter_at book.now number) page.old) }
{
    write_comma_unless(page, is_first)?;
    write_parameter(book, page, number)
}

// Writes parameters with commas between them.
fn write_parameters(book: &Book<'_>, page: &mut Page, numbers: &[FactId]) -> Result<(), PlainFault>
    requires { IsBook book.now }
    ensures { Writes result page.new (put (listed_words true (map (parameter_at book.now) numbers.now)) page.old) }
{
    let mut is_first = true;
    for number in numbers {
        write_next(book, page, is_first, *number)?;
        is_first = false;
    }
    Ok(())
}

/// Whether there are none.
pub(crate) fn is_none(numbers: &[FactId]) -> bool
    ensures { result ≡ parts.is_none numbers.now }
{
    match numbers {
        [] => true,
        _ => false,
    }
}

// Writes an ellipsis where there is one.
#[tactic(auto, using(cxx_page::proofs::Put::put_append, cxx_page::proofs::Put::put_none), unfolding(crate::specs::Parts::dots_behind))]
fn write_dots(page: &mut Page, is_first: bool, ellipsis: bool) -> Result<(), PlainFault>
    ensures { Writes result page.new (put (dots_behind is_first ellipsis) page.old) }
{
    if !ellipsis {
        return Ok(());
    }
    write_comma_unless(page, is_first)?;
    page.word(Role::Alone, b"...")
}

#[tactic(auto, using(cxx_page::proofs::Put::put_append))]
fn write_list_end(page: &mut Page, is_first: bool, ellipsis: bool) -> Result<(), PlainFault>
    ensures { Writes result page.new (put (dots_behind is_first ellipsis ++ close_word ∷ []) page.old) }
{
    write_dots(page, is_first, ellipsis)?;
    page.word(Role::Closes, b")")
}

#[tactic(auto, using(cxx_page::proofs::Put::put_append))]
fn write_listed(
    book: &Book<'_>,
    page: &mut Page,
    numbers: &[FactId],
    ellipsis: bool,
) -> Result<(), PlainFault>
    requires { IsBook book.now }
    ensures { Writes result page.new (put (listed_words true (map (parameter_at book.now) numbers.now) ++ (dots_behind (parts.is_none numbers.now) ellipsis ++ close_word ∷ [])) page.old) }
{
    write_parameters(book, page, numbers)?;
    write_list_end(page, is_none(numbers), ellipsis)
}

// Writes the list of parameters with its brackets.
#[tactic(auto, using(cxx_page::proofs::Put::put_more), unfolding(crate::specs::Parts::list_at))]
fn write_list(
    book: &Book<'_>,
    page: &mut Page,
    numbers: &[FactId],
    ellipsis: bool,
) -> Result<(), PlainFault>
    requires { IsBook book.now }
    ensures { Writes result page.new (put (list_at book.now numbers.now ellipsis) page.old) }
{
    page.word(Role::Opens, b"(")?;
    write_listed(book, page, numbers, ellipsis)
}

// ---- the function

// Writes the list of parameters, and the words behind it (9.3.1).
#[tactic(auto, using(cxx_page::proofs::Put::put_append), unfolding(crate::specs::Parts::worded_list))]
fn write_worded_list(
    book: &Book<'_>,
    page: &mut Page,
    number: FactId,
    numbers: &[FactId],
    ellipsis: bool,
) -> Result<(), PlainFault>
    requires { IsBook book.now }
    ensures { Writes result page.new (put (worded_list book.now number numbers.now ellipsis) page.old) }
{
    write_list(book, page, numbers, ellipsis)?;
    write_words_behind(book, page, number)
}

// Writes the name of a function with its class, and its list.
#[tactic(auto, using(cxx_page::proofs::Put::put_append), unfolding(crate::specs::Parts::named_list))]
fn write_named_list(
    book: &Book<'_>,
    page: &mut Page,
    number: FactId,
    numbers: &[FactId],
    ellipsis: bool,
) -> Result<(), PlainFault>
    requires { IsBook book.now }
    ensures { Writes result page.new (put (named_list book.now number numbers.now ellipsis) page.old) }
{
    write_function_name(book, page, number)?;
    write_worded_list(book, page, number, numbers, ellipsis)
}

// Writes them, and what stands behind them by the type of the result.
#[tactic(auto, using(cxx_page::proofs::Put::put_append))]
fn write_behind(
    book: &Book<'_>,
    page: &mut Page,
    returned: Option<TypeId>,
    number: FactId,
    numbers: &[FactId],
    ellipsis: bool,
) -> Result<(), PlainFault>
    requires book { IsBook book.now }
    requires below { IsTypeNumberBelow (length (book.now.state.now).types) returned }
    ensures { Writes result page.new (put (named_list book.now number numbers.now ellipsis ++ back (tags_of book.now.tags.now) (type_for book.now returned)) page.old) }
{
    write_named_list(book, page, number, numbers, ellipsis)?;
    write_back(book, page, returned)
}

// Writes the function with its parameters, round which the type of its result stands.
#[tactic(auto, using(cxx_page::proofs::Put::put_append, crate::proofs::Typed::declared_as))]
fn write_function(
    book: &Book<'_>,
    page: &mut Page,
    returned: Option<TypeId>,
    number: FactId,
    numbers: &[FactId],
    ellipsis: bool,
) -> Result<(), PlainFault>
    requires book { IsBook book.now }
    requires below { IsTypeNumberBelow (length (book.now.state.now).types) returned }
    ensures { Writes result page.new (put (declared (names_of book.now).tags no_cv (type_for book.now returned) (named_list book.now number numbers.now ellipsis)) page.old) }
{
    write_front(book, page, returned)?;
    write_behind(book, page, returned, number, numbers, ellipsis)
}

// Writes the words of a head.
#[tactic(auto, using(cxx_page::proofs::Put::put_append), unfolding(crate::specs::Parts::head_at))]
fn write_words(
    book: &Book<'_>,
    page: &mut Page,
    returned: Option<TypeId>,
    number: FactId,
    numbers: &[FactId],
    ellipsis: bool,
) -> Result<(), PlainFault>
    requires book { IsBook book.now }
    requires below { IsTypeNumberBelow (length (book.now.state.now).types) returned }
    ensures { Writes result page.new (put (head_at book.now (type_for book.now returned) number numbers.now ellipsis) page.old) }
{
    write_function(book, page, returned, number, numbers, ellipsis)?;
    page.word(Role::Alone, b"{")
}

// ---- what a declarator says

// The type that a function returns, by the type of its declarator.
fn returned_by(types: &TypeTable, number: TypeId) -> Option<TypeId>
    requires { number.0 < length types.now }
    ensures is { type_or_void (type_of_option types.now result) ≡ definitions.result_of (type_at types.now number.0) }
    ensures below { IsTypeNumberBelow (length types.now) result }
{
    match types.node(number) {
        TypeNode::Function { result, .. } => Some(*result),
        _ => None,
    }
}

fn returned(types: &TypeTable, of: Option<TypeId>) -> Option<TypeId>
    requires { IsTypeNumberBelow (length types.now) of }
    ensures is { type_or_void (type_of_option types.now result) ≡ definitions.result_of (type_or_void (type_of_option types.now of)) }
    ensures below { IsTypeNumberBelow (length types.now) result }
{
    let Some(number) = of else {
        return None;
    };
    returned_by(types, number)
}

fn has_ellipsis_by(types: &TypeTable, number: TypeId) -> bool
    requires { number.0 < length types.now }
    ensures { result ≡ definitions.has_ellipsis (type_at types.now number.0) }
{
    match types.node(number) {
        TypeNode::Function { ellipsis, .. } => *ellipsis,
        _ => false,
    }
}

fn has_ellipsis(types: &TypeTable, of: Option<TypeId>) -> bool
    requires { IsTypeNumberBelow (length types.now) of }
    ensures { result ≡ definitions.has_ellipsis (type_or_void (type_of_option types.now of)) }
{
    let Some(number) = of else {
        return false;
    };
    has_ellipsis_by(types, number)
}

// The type of a declarator.
fn type_of(state: &State, declarator: Option<TreeId>) -> Option<TypeId>
    requires { IfSome declarator (λ number. number.0 < length (trees state.now)) }
    ensures is { type_or_void (type_of_option (state.now).types result) ≡ definitions.type_of_declarator (option_map (tree state.now) declarator) }
    ensures below { IsTypeNumberBelow (length (state.now).types) result }
{
    let Some(number) = declarator else {
        return None;
    };
    state.node(number).of
}

// The first declaration of the function that is declared.
fn first_by(number: FactId, what: Entity) -> FactId
    ensures { (types : List CxxType) → result.0 ≡ definitions.function_first_by number.0 (declares_at types what) }
{
    match what {
        Entity::Function {
            first: Some(first),
            ..
        } => first,
        _ => number,
    }
}

fn first_found(state: &State, number: FactId) -> FactId
    ensures { result.0 ≡ definitions.function_first number.0 (slice_get (facts_in state.now) number.0) }
{
    let Some(fact) = find(state, number) else {
        return number;
    };
    first_by(number, fact.what)
}

// The first declaration of the function of a declarator.
fn first_of(state: &State, declarator: Option<TreeId>) -> FactId
    requires { IfSome declarator (λ number. number.0 < length (trees state.now)) }
    ensures { result.0 ≡ definitions.first_of_declarator (facts_in state.now) (option_map (tree state.now) declarator) }
{
    let Some(number) = declarator else {
        return FactId(0);
    };
    let Some(target) = state.node(number).target else {
        return FactId(0);
    };
    first_found(state, target)
}

// Writes the words of the head of a definition whose declarator has a type.
fn write_typed(
    book: &Book<'_>,
    page: &mut Page,
    of: Option<TypeId>,
    number: FactId,
    numbers: &[FactId],
) -> Result<(), PlainFault>
    requires book { IsBook book.now }
    requires below { IsTypeNumberBelow (length (book.now.state.now).types) of }
    ensures { Writes result page.new (put (head_at book.now (definitions.result_of (type_for book.now of)) number numbers.now (definitions.has_ellipsis (type_for book.now of))) page.old) }
{
    let types = book.state.types();
    write_words(
        book,
        page,
        returned(types, of),
        number,
        numbers,
        has_ellipsis(types, of),
    )
}

/// Writes the first line of a definition, by its declarator and its parameters.
#[tactic(auto, unfolding(cxx_page::specs::Sheets::put_line))]
pub(crate) fn write_head(
    book: &Book<'_>,
    page: &mut Page,
    declarator: Option<TreeId>,
    numbers: &[FactId],
) -> Result<(), PlainFault>
    requires book { IsBook book.now }
    requires below { IfSome declarator (λ number. number.0 < length (trees book.now.state.now)) }
    ensures { Writes result page.new (put_line (parts.head_of book.now (option_map (tree book.now.state.now) declarator) numbers.now) page.old) }
{
    let number = first_of(book.state, declarator);
    write_typed(book, page, type_of(book.state, declarator), number, numbers)?;
    page.end_line()
}
