//! The objects that declarations in blocks declare there.
ghost use Rattle.std.specs.Prelude.{◌≡◌, ◌<◌, [], ◌∷◌, ◌++◌, List, Some, false, flat_map, length, option_map, IfOk, IfSome, OnOk};
ghost use Rattle.std.specs.List.{slice_get};
ghost use Rattle.std.specs.Option.{option_copied};
ghost use Rattle.cxx_model.specs.Facts.Declarations.{declares_at};
ghost use Rattle.cxx_model.specs.Facts.Fitted.{IsTypeNumberBelow};
ghost use Rattle.cxx_model.specs.Types.Trees.{CxxType};
ghost use Rattle.cxx_page.specs.Sheets.{Writes, put, put_line, put_lines};
ghost use Rattle.cxx_phrase_text.specs.Named.{trees_of, type_for};
ghost use Rattle.cxx_reading.specs.Declarators.{no_cv};
ghost use Rattle.cxx_reading.specs.Plain.{is_empty, target_or as target_or_of};
ghost use Rattle.cxx_reading.specs.Words.{declared, name_word, semicolon_word};
ghost use Rattle.cxx_tree.specs.Arena.{tree_in, AreTreesBelow};
ghost use Rattle.cxx_tree.specs.Held.{tree, trees};
ghost use Rattle.cxx_statement_text.specs.Objects as objects;
ghost use Rattle.cxx_statement_text.specs.Statements as text;
ghost use Rattle.cxx_statement_text.specs.Written.{facts_in, number_in, parts_in, object_line_at, scene_of, AddsTrees, AreTrees};

use crate::lines::{write_indent, write_last_word};
use crate::names::StatementNames;
use crate::production::{DECLARATOR, INITIALIZER, SPECIFIERS};
use cxx_model::{Entity, Fact, FactId, TreeId, TypeId};
use cxx_page::{Page, PlainFault};
use cxx_phrase_text::write_initializer;
use cxx_reading::Role;
use cxx_tree::State;
use std::alloc::{AllocError, Global};

fn fact(state: &State, number: FactId) -> &Fact
    requires { number.0 < length (state.now).graph.facts }
    ensures { slice_get (state.now).graph.facts number.0 ≡ Some result.now }
{
    &state.graph().facts()[number.0 as usize]
}

// The declaration with a number, where there is one.
fn find(state: &State, number: FactId) -> Option<&Fact>
    ensures { option_copied result ≡ slice_get (state.now).graph.facts number.0 }
{
    if number.0 >= state.graph().length() {
        return None;
    }
    Some(fact(state, number))
}

// The first declaration of the object that is declared.
fn first_by(number: FactId, what: Entity) -> Option<FactId>
    ensures { (types : List CxxType) → option_map number_in result ≡ objects.first_by number.0 (declares_at types what) }
{
    match what {
        Entity::Object {
            first: Some(first),
            ..
        } => Some(first),
        Entity::Object { first: None, .. } => Some(number),
        _ => None,
    }
}

fn first_found(state: &State, number: FactId) -> Option<FactId>
    ensures { option_map number_in result ≡ objects.first_of_fact number.0 (slice_get (facts_in state.now) number.0) }
{
    let Some(fact) = find(state, number) else {
        return None;
    };
    first_by(number, fact.what)
}

// The first declaration of the object that a declarator declares, where it declares one.
fn first_in(state: &State, number: TreeId) -> Option<FactId>
    requires { number.0 < length (trees state.now) }
    ensures { option_map number_in result ≡ objects.first_in (facts_in state.now) (tree state.now number) }
{
    let Some(target) = state.node(number).target else {
        return None;
    };
    first_found(state, target)
}

fn first_or_none(first: Option<FactId>) -> FactId
    ensures { result.0 ≡ target_or_of (option_map number_in first) }
{
    match first {
        Some(first) => first,
        None => FactId(0),
    }
}

fn is_nothing(spelling: &[u8]) -> bool
    ensures { result ≡ is_empty spelling.now }
{
    spelling.is_empty()
}

fn is_found(first: Option<FactId>) -> bool
    ensures { result ≡ objects.is_found (option_map number_in first) }
{
    first.is_some()
}

// Whether a declarator prints.
fn prints(state: &State, number: TreeId) -> bool
    requires { number.0 < length (trees state.now) }
    ensures { result ≡ objects.prints (facts_in state.now) (tree state.now number) }
{
    is_nothing(state.node(number).spelling.as_slice()) && is_found(first_in(state, number))
}

// Adds a tree.
fn add(state: &State, number: TreeId, found: &mut Vec<TreeId>) -> Result<(), AllocError>
    requires { number.0 < length (trees state.now) }
    ensures { OnOk result (AddsTrees state.now found.old.items found.new.items (tree state.now number ∷ [])) }
{
    let _ = state;
    found.push(number)?;
    Ok(())
}

// Adds a declarator that prints.
fn add_printing(state: &State, number: TreeId, found: &mut Vec<TreeId>) -> Result<(), AllocError>
    requires { number.0 < length (trees state.now) }
    ensures { OnOk result (AddsTrees state.now found.old.items found.new.items (objects.if_printed (facts_in state.now) (tree state.now number))) }
{
    if prints(state, number) {
        return add(state, number, found);
    }
    Ok(())
}

// Adds those in a tree, in order.
#[cycle(printed)]
fn add_in(state: &State, number: TreeId, found: &mut Vec<TreeId>) -> Result<(), AllocError>
    requires { number.0 < length (trees state.now) }
    ensures { OnOk result (AddsTrees state.now found.old.items found.new.items (objects.printed_in (facts_in state.now) (parts_in state.now (number ∷ [])))) }
{
    let node = state.node(number);
    if node.production == DECLARATOR {
        return add_printing(state, number, found);
    }
    add_each(state, node.children.as_slice(), number, found)
}

// Adds those in each of some trees.
#[cycle(printed)]
fn add_each(
    state: &State,
    parts: &[TreeId],
    end: TreeId,
    found: &mut Vec<TreeId>,
) -> Result<(), AllocError>
    requires known { end.0 < length (trees state.now) }
    requires earlier { AreTreesBelow end.0 parts.now }
    ensures { OnOk result (AddsTrees state.now found.old.items found.new.items (objects.printed_in (facts_in state.now) (parts_in state.now parts.now))) }
{
    for part in parts {
        add_in(state, *part, found)?;
    }
    Ok(())
}

/// The declarators among some trees that print.
pub(crate) fn printed(
    state: &State,
    alloc: Global,
    parts: &[TreeId],
    end: TreeId,
) -> Result<Vec<TreeId>, AllocError>
    requires known { end.0 < length (trees state.now) }
    requires earlier { AreTreesBelow end.0 parts.now }
    ensures { IfOk result (λ found. AreTrees state.now found.items (objects.printed_in (facts_in state.now) (parts_in state.now parts.now))) }
{
    let mut found = Vec::new(alloc);
    add_each(state, parts, end, &mut found)?;
    Ok(found)
}

// Whether the specifiers among some trees, which stand first in a declaration, are spelled `static`.
#[cycle(storage)]
pub(crate) fn is_static(state: &State, parts: &[TreeId], end: TreeId) -> bool
    requires known { end.0 < length (trees state.now) }
    requires earlier { AreTreesBelow end.0 parts.now }
    ensures { result ≡ objects.is_static (parts_in state.now parts.now) }
{
    match parts {
        [first, ..] => is_static_tree(state, *first),
        [] => false,
    }
}

#[cycle(storage)]
fn is_static_tree(state: &State, number: TreeId) -> bool
    requires { number.0 < length (trees state.now) }
    ensures { result ≡ objects.is_static (parts_in state.now (number ∷ [])) }
{
    let node = state.node(number);
    if node.production == SPECIFIERS {
        return node.spelling.as_slice() == b"static".as_slice();
    }
    is_static(state, node.children.as_slice(), number)
}

// ---- how they are written

/// The first initializer among the parts of a declarator.
pub(crate) fn initializer(state: &State, parts: &[TreeId]) -> Option<TreeId>
    requires { AreTreesBelow (length (trees state.now)) parts.now }
    ensures is { option_map (tree state.now) result ≡ slice_get (objects.initializers_in (parts_in state.now parts.now)) 0 }
    ensures below { IfSome result (λ number. number.0 < length (trees state.now)) }
{
    for part in parts {
        if state.node(*part).production == INITIALIZER {
            return Some(*part);
        }
    }
    None
}

// Writes the initializer among the parts of a declarator, where there is one.
fn write_among<N: StatementNames>(
    names: &N,
    page: &mut Page,
    parts: &[TreeId],
) -> Result<(), PlainFault>
    requires ready { N.is_ready names.now }
    requires below { AreTreesBelow (length (trees_of (N.named names.now))) parts.now }
    ensures { Writes result page.new (put (objects.first_initializer (scene_of (N.named names.now) (N.value names.now)) (objects.initializers_in (parts_in (N.named names.now).held parts.now))) page.old) }
{
    let Some(number) = initializer(names.state(), parts) else {
        return Ok(());
    };
    write_initializer(names, page, number)
}

#[tactic(auto, using(cxx_page::proofs::Put::put_none))]
fn write_static(page: &mut Page, stands: bool) -> Result<(), PlainFault>
    ensures { Writes result page.new (put (objects.static_words stands) page.old) }
{
    if stands {
        return page.word(Role::Alone, b"static");
    }
    Ok(())
}

// Writes the name of an object with its type, and its initializer.
#[tactic(auto, using(cxx_page::proofs::Put::put_append))]
fn write_initialized<N: StatementNames>(
    names: &N,
    page: &mut Page,
    of: Option<TypeId>,
    parts: &[TreeId],
    number: FactId,
) -> Result<(), PlainFault>
    requires ready { N.is_ready names.now }
    requires of { IsTypeNumberBelow (length (N.named names.now).held.types) of }
    requires below { AreTreesBelow (length (trees_of (N.named names.now))) parts.now }
    ensures { Writes result page.new (put (declared (N.named names.now).tags no_cv (type_for (N.named names.now) of) (name_word ((N.named names.now).name number.0) ∷ []) ++ objects.first_initializer (scene_of (N.named names.now) (N.value names.now)) (objects.initializers_in (parts_in (N.named names.now).held parts.now))) page.old) }
{
    names.write_declared(page, of, number)?;
    write_among(names, page, parts)
}

// Writes an object, given the node of its declarator.
fn write_node<N: StatementNames>(
    names: &N,
    page: &mut Page,
    number: TreeId,
) -> Result<(), PlainFault>
    requires ready { N.is_ready names.now }
    requires known { number.0 < length (trees_of (N.named names.now)) }
    ensures { Writes result page.new (put (objects.object_words (scene_of (N.named names.now) (N.value names.now)) false (tree_in (trees_of (N.named names.now)) number.0)) page.old) }
{
    let node = names.state().node(number);
    let first = first_or_none(first_in(names.state(), number));
    write_initialized(names, page, node.of, node.children.as_slice(), first)
}

/// Writes an object by its declarator.
#[tactic(auto, using(cxx_page::proofs::Put::put_append))]
pub(crate) fn write_object<N: StatementNames>(
    names: &N,
    page: &mut Page,
    is_static: bool,
    number: TreeId,
) -> Result<(), PlainFault>
    requires ready { N.is_ready names.now }
    requires known { number.0 < length (trees_of (N.named names.now)) }
    ensures { Writes result page.new (put (objects.object_words (scene_of (N.named names.now) (N.value names.now)) is_static (tree_in (trees_of (N.named names.now)) number.0)) page.old) }
{
    write_static(page, is_static)?;
    write_node(names, page, number)
}

/// Writes the name of an object.
pub(crate) fn write_object_name<N: StatementNames>(
    names: &N,
    page: &mut Page,
    number: TreeId,
) -> Result<(), PlainFault>
    requires ready { N.is_ready names.now }
    requires known { number.0 < length (trees_of (N.named names.now)) }
    ensures { Writes result page.new (put (objects.name_of (scene_of (N.named names.now) (N.value names.now)) (tree_in (trees_of (N.named names.now)) number.0) ∷ []) page.old) }
{
    let first = first_or_none(first_in(names.state(), number));
    names.write_name(page, first)
}

// Writes an object with the semicolon that ends its line.
#[tactic(auto, using(crate::proofs::Lining::line_append))]
fn write_ended<N: StatementNames>(
    names: &N,
    page: &mut Page,
    is_static: bool,
    number: TreeId,
) -> Result<(), PlainFault>
    requires ready { N.is_ready names.now }
    requires known { number.0 < length (trees_of (N.named names.now)) }
    ensures { Writes result page.new (put_line (objects.object_words (scene_of (N.named names.now) (N.value names.now)) is_static (tree_in (trees_of (N.named names.now)) number.0) ++ semicolon_word ∷ []) page.old) }
{
    write_object(names, page, is_static, number)?;
    write_last_word(page, Role::Follows, b";")
}

// Writes the line of an object.
#[tactic(auto, using(crate::proofs::Lining::line_is), unfolding(crate::specs::Written::object_line_at))]
fn write_line<N: StatementNames>(
    names: &N,
    page: &mut Page,
    is_static: bool,
    depth: u64,
    number: TreeId,
) -> Result<(), PlainFault>
    requires ready { N.is_ready names.now }
    requires known { number.0 < length (trees_of (N.named names.now)) }
    ensures { Writes result page.new (put_lines (object_line_at (N.named names.now) (N.value names.now) is_static depth number) page.old) }
{
    write_indent(page, depth)?;
    write_ended(names, page, is_static, number)
}

/// Writes a line for each of some objects.
pub(crate) fn write_objects<N: StatementNames>(
    names: &N,
    page: &mut Page,
    is_static: bool,
    depth: u64,
    numbers: &[TreeId],
) -> Result<(), PlainFault>
    requires ready { N.is_ready names.now }
    requires below { AreTreesBelow (length (trees_of (N.named names.now))) numbers.now }
    ensures { Writes result page.new (put_lines (flat_map (object_line_at (N.named names.now) (N.value names.now) is_static depth) numbers.now) page.old) }
{
    for number in numbers {
        write_line(names, page, is_static, depth, *number)?;
    }
    Ok(())
}

/// Writes a line for each object that a declaration declares, given the parts of its statement.
pub(crate) fn write_declaration<N: StatementNames>(
    alloc: Global,
    names: &N,
    page: &mut Page,
    depth: u64,
    parts: &[TreeId],
    end: TreeId,
) -> Result<(), PlainFault>
    requires ready { N.is_ready names.now }
    requires known { end.0 < length (trees_of (N.named names.now)) }
    requires earlier { AreTreesBelow end.0 parts.now }
    ensures { Writes result page.new (put_lines (text.declaration_lines (scene_of (N.named names.now) (N.value names.now)) depth (parts_in (N.named names.now).held parts.now)) page.old) }
{
    let held = names.state();
    let found = printed(held, alloc, parts, end)?;
    let stands = is_static(held, parts, end);
    write_objects(names, page, stands, depth, found.as_slice())
}
