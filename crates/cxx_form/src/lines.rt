//! The lines of a plain form, in order.
ghost use Rattle.std.specs.Prelude.{◌≡◌, ◌<◌, [], ℕ, List, length, map, option_map, IfOk, OnOk};
ghost use Rattle.std.specs.List.{slice_get};
ghost use Rattle.cxx_model.specs.Facts.Declarations.{declares_at};
ghost use Rattle.cxx_model.specs.Types.Trees.{CxxType};
ghost use Rattle.cxx_meaning.specs.Lookups.Gathered.{before};
ghost use Rattle.cxx_form.specs.Order.{class_definitions, class_lines, definition_lines, ended_class as ended_class_of, enumeration_lines, function_lines, is_of_namespace as is_of_a_namespace, is_outside as is_outside_of, is_outside_by as is_outside_by_what, is_outside_in, is_static_again as is_a_static_again, is_written_out as is_written_out_by, lines as lines_of, object_by, object_lines, scope_of_fact};
ghost use Rattle.cxx_reading.specs.Trees.{CxxTree};
ghost use Rattle.cxx_tree.specs.Arena.{tree_in, trees_in, AreTreesBelow};
ghost use Rattle.cxx_tree.specs.Held.{meaning, trees};
ghost use Rattle.cxx_form.specs.Giving.{class_definition_by, class_definition_given, AreFirst, enumeration_by, enumeration_given, function_by, function_given, given_at};
ghost use Rattle.cxx_form.specs.Lines.{number_in, line_at, lines_at, AddsLines, AreLinesBelow, IsGivenBelow};
ghost use Rattle.cxx_form.specs.Views.{facts_in};

use crate::defined::first_in;
use crate::enumerations::{classes, declaration};
use crate::facts::{fact, find};
use crate::found::{declarators, definitions};
use crate::slots::Slots;
use cxx_model::{Entity, EnumId, FactId, MemberKind, ScopeId, TreeId};
use cxx_tree::State;
use std::alloc::{AllocError, Global};

/// A line of a plain form.
#[derive(Clone, Copy)]
pub enum Line {
    /// The first declaration of a class (9.1).
    Class(FactId),
    /// An enumeration, and where it is declared (7.2).
    Enumeration(EnumId, FactId),
    /// The first declaration of a class, and its scope, for its definition (9.2), which has lines of its own.
    ClassDefinition(FactId, ScopeId),
    /// The first declaration of a function that is no member.
    Function(FactId),
    /// The tree of a declarator of an object, and the object's first declaration.
    Object(TreeId, FactId),
    /// The tree of a definition of a function (8.4), which has lines of its own.
    Definition(TreeId),
}

fn enumeration_line(number: FactId, what: Entity) -> Option<Line>
    ensures is { (types : List CxxType) (trees : List CxxTree) → option_map (line_at trees) result ≡ enumeration_by number.0 (declares_at types what) }
    ensures below { (count : ℕ) → IsGivenBelow count result }
{
    match what {
        Entity::Enumeration { number: n } => Some(Line::Enumeration(n, number)),
        _ => None,
    }
}

// The class whose end it is (9.2).
fn ended_class(what: Entity) -> Option<u32>
    ensures { (types : List CxxType) → result ≡ ended_class_of (declares_at types what) }
{
    match what {
        Entity::Complete { class } => Some(class.0),
        _ => None,
    }
}

// The definition of a class that ends in its scope, where one ends.
fn class_definition(
    state: &State,
    places: &Slots,
    scope: ScopeId,
    ended: Option<u32>,
) -> Option<Line>
    requires { AreFirst (facts_in state.now) places.now }
    ensures is { option_map (line_at (trees state.now)) result ≡ class_definition_by (facts_in state.now) scope.0 ended }
    ensures below { IsGivenBelow (length (trees state.now)) result }
{
    let Some(class) = ended else {
        return None;
    };
    let count = state.graph().length();
    let number = declaration(places, class, count);
    Some(Line::ClassDefinition(number, scope))
}

fn function_line(number: FactId, what: Entity) -> Option<Line>
    ensures is { (types : List CxxType) (trees : List CxxTree) → option_map (line_at trees) result ≡ function_by number.0 (declares_at types what) }
    ensures below { (count : ℕ) → IsGivenBelow count result }
{
    match what {
        Entity::Function {
            member: MemberKind::Free,
            first: None,
            ..
        } => Some(Line::Function(number)),
        _ => None,
    }
}

// Adds a line, where there is one.
fn add(state: &State, lines: &mut Vec<Line>, line: Option<Line>) -> Result<(), AllocError>
    requires { IsGivenBelow (length (trees state.now)) line }
    ensures { OnOk result (AddsLines (trees state.now) lines.old.items lines.new.items (before (option_map (line_at (trees state.now)) line) [])) }
{
    let _ = state;
    let Some(line) = line else {
        return Ok(());
    };
    lines.push(line)?;
    Ok(())
}

fn add_enumeration(state: &State, number: u32, lines: &mut Vec<Line>) -> Result<(), AllocError>
    requires { number < length (state.now).graph.facts }
    ensures { OnOk result (AddsLines (trees state.now) lines.old.items lines.new.items (given_at enumeration_given number (slice_get (facts_in state.now) number))) }
{
    let fact = fact(state, FactId(number));
    add(state, lines, enumeration_line(FactId(number), fact.what))?;
    Ok(())
}

fn add_class_definition(
    state: &State,
    places: &Slots,
    number: u32,
    lines: &mut Vec<Line>,
) -> Result<(), AllocError>
    requires places { AreFirst (facts_in state.now) places.now }
    requires there { number < length (state.now).graph.facts }
    ensures { OnOk result (AddsLines (trees state.now) lines.old.items lines.new.items (given_at (class_definition_given (facts_in state.now)) number (slice_get (facts_in state.now) number))) }
{
    let fact = fact(state, FactId(number));
    add(
        state,
        lines,
        class_definition(state, places, fact.scope, ended_class(fact.what)),
    )?;
    Ok(())
}

fn add_function(state: &State, number: u32, lines: &mut Vec<Line>) -> Result<(), AllocError>
    requires { number < length (state.now).graph.facts }
    ensures { OnOk result (AddsLines (trees state.now) lines.old.items lines.new.items (given_at function_given number (slice_get (facts_in state.now) number))) }
{
    let fact = fact(state, FactId(number));
    add(state, lines, function_line(FactId(number), fact.what))?;
    Ok(())
}

// Adds a line for each class.
fn add_classes(state: &State, places: &Slots, lines: &mut Vec<Line>) -> Result<(), AllocError>
    requires { AreFirst (facts_in state.now) places.now }
    ensures { OnOk result (AddsLines (trees state.now) lines.old.items lines.new.items (class_lines (facts_in state.now) 0 (length (state.now).graph.classes))) }
{
    let count = state.graph().length();
    for class in 0..state.graph().class_count() {
        let number = declaration(places, class, count);
        lines.push(Line::Class(number))?;
    }
    Ok(())
}

// Adds a line for each enumeration.
fn add_enumerations(state: &State, lines: &mut Vec<Line>) -> Result<(), AllocError>
    ensures { OnOk result (AddsLines (trees state.now) lines.old.items lines.new.items (enumeration_lines 0 (facts_in state.now))) }
{
    for number in 0..state.graph().length() {
        add_enumeration(state, number, lines)?;
    }
    Ok(())
}

// Adds the definition of each class that ends.
fn add_class_definitions(
    state: &State,
    places: &Slots,
    lines: &mut Vec<Line>,
) -> Result<(), AllocError>
    requires { AreFirst (facts_in state.now) places.now }
    ensures { OnOk result (AddsLines (trees state.now) lines.old.items lines.new.items (class_definitions (facts_in state.now) (facts_in state.now))) }
{
    for number in 0..state.graph().length() {
        add_class_definition(state, places, number, lines)?;
    }
    Ok(())
}

// Adds a line for each function that is no member.
fn add_functions(state: &State, lines: &mut Vec<Line>) -> Result<(), AllocError>
    ensures { OnOk result (AddsLines (trees state.now) lines.old.items lines.new.items (function_lines 0 (facts_in state.now))) }
{
    for number in 0..state.graph().length() {
        add_function(state, number, lines)?;
    }
    Ok(())
}

#[tactic(auto, using(crate::proofs::Lined::scope_there, crate::proofs::Lined::scope_nowhere))]
fn scope_in(state: &State, number: FactId) -> ScopeId
    ensures { result.0 ≡ scope_of_fact (slice_get (facts_in state.now) number.0) }
{
    match find(state, number) {
        Some(fact) => fact.scope,
        None => ScopeId(0),
    }
}

// Whether what a declarator declares is of a namespace.
fn is_of_namespace(state: &State, target: Option<FactId>) -> bool
    ensures { result ≡ is_of_a_namespace (facts_in state.now) (option_map number_in target) }
{
    match target {
        None => false,
        Some(number) => state
            .names()
            .is_space(state.graph(), scope_in(state, number)),
    }
}

fn is_static_again(member: MemberKind, first: Option<FactId>) -> bool
    ensures { result ≡ is_a_static_again member first }
{
    match member {
        MemberKind::Static => first.is_some(),
        _ => false,
    }
}

fn is_outside_by(what: Entity) -> bool
    ensures { (types : List CxxType) → result ≡ is_outside_by_what (declares_at types what) }
{
    match what {
        Entity::Object { member, first, .. } => is_static_again(member, first),
        _ => false,
    }
}

fn is_outside_at(state: &State, number: FactId) -> bool
    ensures { result ≡ is_outside_in (slice_get (facts_in state.now) number.0) }
{
    match find(state, number) {
        Some(fact) => is_outside_by(fact.what),
        None => false,
    }
}

// Whether what a declarator declares is a member that stands outside of its class (9.4.2).
fn is_outside(state: &State, target: Option<FactId>) -> bool
    ensures { result ≡ is_outside_of (facts_in state.now) (option_map number_in target) }
{
    match target {
        None => false,
        Some(number) => is_outside_at(state, number),
    }
}

// Whether a declarator is written among those of namespaces (3.5, 9.4.2).
fn is_written_out(state: &State, tree: TreeId) -> bool
    requires { tree.0 < length (trees state.now) }
    ensures { result ≡ is_written_out_by (facts_in state.now) (tree_in (trees state.now) tree.0) }
{
    let node = state.node(tree);
    is_of_namespace(state, node.target)
        || (is_outside(state, node.target) || !node.spelling.as_slice().is_empty())
}

// The line of a declarator, where it declares an object.
#[tactic(auto, using(crate::proofs::Lined::object_by_first, crate::proofs::Lined::object_not_written))]
fn object_line(state: &State, tree: TreeId) -> Option<Line>
    requires { tree.0 < length (trees state.now) }
    ensures is { before (option_map (line_at (trees state.now)) result) [] ≡ object_by (facts_in state.now) (tree_in (trees state.now) tree.0) (tree_in (trees state.now) tree.0).label.target }
    ensures below { IsGivenBelow (length (trees state.now)) result }
{
    if !is_written_out(state, tree) {
        return None;
    }
    let Some(first) = first_in(state, tree) else {
        return None;
    };
    Some(Line::Object(tree, first))
}

// Adds a line for each declarator of an object.
fn add_objects(
    state: &State,
    declarators: &[TreeId],
    lines: &mut Vec<Line>,
) -> Result<(), AllocError>
    requires { AreTreesBelow (length (trees state.now)) declarators.now }
    ensures { OnOk result (AddsLines (trees state.now) lines.old.items lines.new.items (object_lines (facts_in state.now) (trees_in (trees state.now) declarators.now))) }
{
    for tree in declarators {
        add(state, lines, object_line(state, *tree))?;
    }
    Ok(())
}

// Adds each definition of a function.
fn add_definitions(
    state: &State,
    definitions: &[TreeId],
    lines: &mut Vec<Line>,
) -> Result<(), AllocError>
    requires { AreTreesBelow (length (trees state.now)) definitions.now }
    ensures { OnOk result (AddsLines (trees state.now) lines.old.items lines.new.items (map definition_lines (trees_in (trees state.now) definitions.now))) }
{
    for tree in definitions {
        lines.push(Line::Definition(*tree))?;
    }
    Ok(())
}

/// The lines of the plain form, in order, given where each class is declared first.
pub(crate) fn lines_by(
    state: &State,
    places: &Slots,
    alloc: Global,
) -> Result<Vec<Line>, AllocError>
    requires { AreFirst (facts_in state.now) places.now }
    ensures is { IfOk result (λ found. lines_at (trees state.now) found.items ≡ lines_of (meaning state.now)) }
    ensures below { IfOk result (λ found. AreLinesBelow (length (trees state.now)) found.items) }
{
    let mut found = Vec::new(alloc);
    let declarators = declarators(state, alloc)?;
    let definitions = definitions(state, alloc)?;
    add_classes(state, places, &mut found)?;
    add_enumerations(state, &mut found)?;
    add_class_definitions(state, places, &mut found)?;
    add_functions(state, &mut found)?;
    add_objects(state, declarators.as_slice(), &mut found)?;
    add_definitions(state, definitions.as_slice(), &mut found)?;
    Ok(found)
}

/// The lines of the plain form, in order.
pub fn plain_lines(state: &State, alloc: Global) -> Result<Vec<Line>, AllocError>
    ensures is { IfOk result (λ found. lines_at (trees state.now) found.items ≡ lines_of (meaning state.now)) }
    ensures below { IfOk result (λ found. AreLinesBelow (length (trees state.now)) found.items) }
{
    let places = classes(state, alloc)?;
    lines_by(state, &places, alloc)
}
