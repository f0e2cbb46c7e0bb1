//! The bodies of functions (8.4).

ghost use Rattle.std.specs.Prelude.{◌≡◌, ◌<◌, [], length, Some, true};
ghost use Rattle.std.specs.List.{slice_get};
ghost use Rattle.std.specs.Option.{option_copied};
ghost use Rattle.cxx_model.specs.Facts.Declarations.{declares_at, facts_at, graph_at};
ghost use Rattle.cxx_model.specs.Facts.Fitted.{Fitted, IsEntityBelow};
ghost use Rattle.cxx_reading.specs.Units.{is_incomplete as is_incomplete_of};
ghost use Rattle.cxx_body.specs.Opened.{IsReturned, incomplete_by, statements_opened as statements_opened_of};
ghost use Rattle.cxx_language.specs.Bodies as definition;
ghost use Rattle.cxx_model.specs.Types.Numbers.{type_at};
ghost use Rattle.cxx_model.specs.Facts.Graph.{scopes};
ghost use Rattle.cxx_reading.specs.Declaring as declaring;
ghost use Rattle.cxx_reading.specs.Labels.{label_from};
ghost use Rattle.cxx_reading.specs.Trees.{tree_of};
ghost use Rattle.cxx_statements.specs.Productions as statement;
ghost use Rattle.cxx_cursor.specs.Asking.{AnyKnown, IsAsked, IsTreeKnown, itself};
ghost use Rattle.cxx_cursor.specs.Making.{GrowsTree};
ghost use Rattle.cxx_cursor.specs.Reading.{IsRead};
ghost use Rattle.cxx_cursor.specs.Views.{AreTreesHeld, name_at, trees_held};
ghost use Rattle.cxx_tree.specs.Held.{meaning, tree, type_of};
ghost use Rattle.cxx_expr.specs.Making.{GrowsType};

use crate::body::Body;
use crate::phrasing::Phrasing;
use cxx_cursor::{Cursor, NameToken, node_from, push};
use cxx_declare as declare;
use cxx_expr::faults::fault;
use cxx_expr::operands::plain_type;
use cxx_graph::Graph;
use cxx_model::{
    Base, Entity, Fact, FactId, FaultText, LimitKind, Listed, Place, ScopeId, Stop, TreeId,
    TreeIdList, TypeId, TypeNode,
};
use cxx_names::is_incomplete;
use cxx_statements::read_body;
use cxx_tree::State;
use cxx_types::TypeTable;

/// The number of the production.
const BLOCK: u8 = 23;

// Whether there is a scope with a number.
fn is_scope(state: &State, scope: ScopeId) -> bool
    ensures { result ≡ true → scope.0 < scopes (state.now).graph.facts }
{
    scope.0 < state.names().scopes(state.graph()).0
}

// Whether there is a declaration with a number.
fn is_declaration(graph: &Graph, number: FactId) -> bool
    ensures { result ≡ true → number.0 < length graph.now.facts }
{
    number.0 < graph.length()
}

// A body begins in the scope of the parameters of its function.
#[tactic(auto, using(crate::proofs::Asked::asked, cxx_cursor::proofs::Kept::later_refl))]
fn begin_body(state: &mut State, list: ScopeId, number: FactId, of: TypeId) -> Result<(), Stop>
    requires { of.0 < length (state.old).types }
    ensures { IsAsked itself AnyKnown state.old state.new result (declaring.begin_body list.0 number.0 (type_of state.old of) (meaning state.old)) }
{
    // No reader asks for the body of what it did not declare, or in a scope that it did not enter.
    if !is_scope(state, list) || !is_declaration(state.graph(), number) {
        return Err(Stop::OutOfMemory);
    }
    declare::begin_body(state, list, number, of)
}

// Behind it the reader stands in a scope again.
#[tactic(auto, using(cxx_cursor::proofs::Kept::later_refl))]
fn end_body(state: &mut State, scope: ScopeId) -> Result<(), Stop>
    ensures { IsAsked itself AnyKnown state.old state.new result (declaring.end_body scope.0 (meaning state.old)) }
{
    // The reader stood in it.
    if !is_scope(state, scope) {
        return Err(Stop::OutOfMemory);
    }
    declare::end_body(state, scope);
    Ok(())
}

// The scope where the reader stands.
#[tactic(auto, unfolding(cxx_tree::specs::Held::meaning))]
fn standing(state: &State) -> ScopeId
    ensures { result.0 ≡ (meaning state.now).here.scope }
{
    state.scope()
}

// From the `{` on, where there is room for it.
#[tactic(auto, using(cxx_cursor::proofs::Kept::trees_kept, cxx_cursor::proofs::Kept::trees_later, cxx_cursor::proofs::Kept::later_refl, cxx_cursor::proofs::Kept::later_trans))]
fn statements_opened<P: Phrasing>(
    phrasing: &P,
    state: &mut State,
    cursor: &mut Cursor<'_>,
    list: ScopeId,
    number: FactId,
    of: TypeId,
    room: u32,
) -> Result<TreeIdList, Stop>
    requires { of.0 < length (state.old).types }
    ensures { IsRead trees_held AreTreesHeld state.old state.new cursor.new result (statements_opened_of room list.0 number.0 (type_of state.old of) (meaning state.old) cursor.old) }
{
    let outside = standing(state);
    begin_body(state, list, number, of)?;
    cursor.advance();
    let body = Body { phrasing };
    let statements = read_body(&body, state, cursor, room)?;
    end_body(state, outside)?;
    Ok(statements)
}

// From the `{` on, which counts for the nesting.
#[tactic(auto, using(crate::proofs::Within::within_zero, crate::proofs::Within::within_more, cxx_cursor::proofs::Kept::later_refl))]
fn statements_within<P: Phrasing>(
    phrasing: &P,
    state: &mut State,
    cursor: &mut Cursor<'_>,
    list: ScopeId,
    number: FactId,
    of: TypeId,
    room: u32,
) -> Result<TreeIdList, Stop>
    requires { of.0 < length (state.old).types }
    ensures { IsRead trees_held AreTreesHeld state.old state.new cursor.new result (definition.statements_within room list.0 number.0 (type_of state.old of) (meaning state.old) cursor.old) }
{
    if room == 0 {
        return Err(Stop::Limit(LimitKind::Nesting));
    }
    statements_opened(phrasing, state, cursor, list, number, of, room - 1)
}

// The number of the next declaration.
#[tactic(auto, using(crate::proofs::Within::next_is))]
fn next_number(state: &State) -> FactId
    ensures { result.0 ≡ length (meaning state.now).graph.facts }
{
    FactId(state.graph().length())
}

// What a type says that a function returns.
fn returned(types: &TypeTable, of: TypeId) -> Option<TypeId>
    requires { of.0 < length types.now }
    ensures { IsReturned types.now result (type_at types.now of.0) }
{
    match types.node(of) {
        TypeNode::Function { result, .. } => Some(*result),
        _ => None,
    }
}

// What a function returns (8.3.5).
#[tactic(auto, using(cxx_cursor::proofs::Kept::later_refl))]
fn result_of(state: &mut State, of: TypeId) -> Result<TypeId, Stop>
    requires { of.0 < length (state.old).types }
    ensures { GrowsType state.old state.new result (definition.result_of (type_of state.old of)) }
{
    match returned(state.types(), of) {
        Some(of) => Ok(of),
        None => plain_type(state, Base::Void),
    }
}

// A body stands for the block that it is, by the declaration of its scope.
fn body_tree(
    state: &mut State,
    scope: FactId,
    statements: TreeIdList,
    from: &Cursor<'_>,
    to: &Cursor<'_>,
) -> Result<TreeId, Stop>
    requires { AreTreesHeld state.old statements }
    ensures { GrowsTree state.old state.new result (tree_of (record (label_from statement.block [] from.now to.now) { target = Some scope.0 }) (trees_held state.old statements)) }
{
    let mut node = node_from(BLOCK, Listed::new(from.alloc()), from, to, statements);
    node.target = Some(scope);
    push(state, node)
}

fn is_incomplete_object(graph: &Graph, types: &TypeTable, what: Entity) -> bool
    requires fitted { Fitted graph.now types.now }
    requires below { IsEntityBelow (length types.now) what }
    ensures { result ≡ definition.is_incomplete_object (graph_at types.now graph.now) (declares_at types.now what) }
{
    match what {
        Entity::Object { of, .. } => is_incomplete(graph, types, of),
        _ => false,
    }
}

// The place of a declaration, where it is one of an object whose class is incomplete.
fn incomplete_place(graph: &Graph, types: &TypeTable, fact: &Fact) -> Option<Place>
    requires fitted { Fitted graph.now types.now }
    requires below { IsEntityBelow (length types.now) fact.now.what }
    ensures { result ≡ incomplete_by graph.now types.now (Some fact.now) }
{
    if is_incomplete_object(graph, types, fact.what) {
        Some(fact.place)
    } else {
        None
    }
}

// The declaration with a number, where there is one.
fn fact_of(graph: &Graph, number: FactId) -> Option<&Fact>
    ensures { option_copied result ≡ slice_get graph.now.facts number.0 }
{
    graph.facts().get(number.0 as usize)
}

fn incomplete_at(graph: &Graph, types: &TypeTable, number: FactId) -> Option<Place>
    requires { Fitted graph.now types.now }
    ensures { result ≡ incomplete_by graph.now types.now (slice_get graph.now.facts number.0) }
{
    match fact_of(graph, number) {
        Some(fact) => incomplete_place(graph, types, fact),
        None => None,
    }
}

// The place of the first parameter in a list whose class is incomplete (9.2).
fn incomplete_among(graph: &Graph, types: &TypeTable, list: ScopeId) -> Option<Place>
    requires { Fitted graph.now types.now }
    ensures { result ≡ definition.incomplete_among (graph_at types.now graph.now) list.0 (facts_at types.now graph.now.facts) }
{
    for number in graph.facts_of(list) {
        if let Some(place) = incomplete_at(graph, types, *number) {
            return Some(place);
        }
    }
    None
}

fn returns_incomplete(graph: &Graph, types: &TypeTable, of: TypeId) -> bool
    requires fitted { Fitted graph.now types.now }
    requires of { of.0 < length types.now }
    ensures { result ≡ is_incomplete_of (graph_at types.now graph.now) (definition.result_of (type_at types.now of.0)) }
{
    match returned(types, of) {
        Some(of) => is_incomplete(graph, types, of),
        None => false,
    }
}

// What a function that is defined returns, and its parameters, are of complete types (8.3.5).
#[tactic(auto, using(cxx_cursor::proofs::Kept::later_refl), unfolding(cxx_language::specs::Bodies::complete_head, cxx_tree::specs::Held::meaning))]
fn complete_head(
    state: &State,
    cursor: &Cursor<'_>,
    name: &NameToken,
    of: TypeId,
    list: ScopeId,
) -> Result<(), Stop>
    requires { of.0 < length (state.now).types }
    ensures { IsRead itself AnyKnown state.now state.now cursor.now result (definition.complete_head (name_at name.now) (type_of state.now of) list.0 (meaning state.now) cursor.now) }
{
    if returns_incomplete(state.graph(), state.types(), of) {
        let fault = fault(cursor.alloc(), name.place, FaultText::IncompleteClass)?;
        return Err(Stop::Fault(fault));
    }
    match incomplete_among(state.graph(), state.types(), list) {
        None => Ok(()),
        Some(place) => {
            let fault = fault(cursor.alloc(), place, FaultText::IncompleteClass)?;
            Err(Stop::Fault(fault))
        }
    }
}

/// The body of the function with a declaration, whose list of parameters has a scope, from its `{` on (8.4), with room for
/// so many more brackets and statements inside one another.
#[tactic(auto, using(cxx_cursor::proofs::Kept::type_kept, cxx_cursor::proofs::Kept::type_later, cxx_cursor::proofs::Kept::trees_kept, cxx_cursor::proofs::Kept::trees_later, cxx_cursor::proofs::Kept::later_refl, cxx_cursor::proofs::Kept::later_trans), unfolding(cxx_language::specs::Bodies::function_body))]
pub fn read_function_body<P: Phrasing>(
    phrasing: &P,
    state: &mut State,
    cursor: &mut Cursor<'_>,
    name: &NameToken,
    of: TypeId,
    number: FactId,
    list: ScopeId,
    room: u32,
) -> Result<TreeId, Stop>
    requires { of.0 < length (state.old).types }
    ensures { IsRead tree IsTreeKnown state.old state.new cursor.new result (definition.function_body room (name_at name.now) (type_of state.old of) number.0 list.0 (meaning state.old) cursor.old) }
{
    phrasing.define_declared(state, name, number)?;
    complete_head(state, cursor, name, of, list)?;
    let from = cursor.mark();
    let scope = next_number(state);
    let returns = result_of(state, of)?;
    let statements = statements_within(phrasing, state, cursor, list, number, returns, room)?;
    body_tree(state, scope, statements, &from, cursor)
}
