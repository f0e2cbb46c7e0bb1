//! `this` (9.3.2).

ghost use Rattle.std.specs.Prelude.{◌≡◌, ◌<◌, length, List, Some, IfSome, option_map};
ghost use Rattle.std.specs.List.{slice_get};
ghost use Rattle.std.specs.Option.{option_copied};
ghost use Rattle.cxx_meaning.specs.Lookups.Wanted.{is_nonstatic_kind};
ghost use Rattle.cxx_model.specs.Facts.Declarations.{declares_at, fact_at, facts_at};
ghost use Rattle.cxx_model.specs.Facts.Fitted.{IsEntityBelow};
ghost use Rattle.cxx_model.specs.Facts.Graph.{IsClassNumberInRange};
ghost use Rattle.cxx_model.specs.Types.Numbers.{type_at};
ghost use Rattle.cxx_model.specs.Types.Trees.{CxxType, class_type, with_cv};
ghost use Rattle.cxx_reading.specs.Seen.{parent_of};
ghost use Rattle.cxx_this.specs.Begun as begun;
ghost use Rattle.cxx_this.specs.Made.{Makes, MayMake};
ghost use Rattle.cxx_this.specs.This as definition;
ghost use Rattle.cxx_tree.specs.Held.{meaning, type_of};

use cxx_graph::Graph;
use cxx_model::{
    ClassId, Cv, Entity, Fact, FactId, MemberKind, ScopeId, ScopeKind, Stop, TypeId, TypeNode,
};
use cxx_tree::State;
use cxx_types::TypeTable;

// ---- the function in whose body a scope stands (8.4)

// The function whose body is the block that a declaration begins.
fn begun_by(what: Entity) -> Option<FactId>
    ensures { (types : List CxxType) → result ≡ definition.begun_by (declares_at types what) }
{
    match what {
        Entity::Scope {
            kind: ScopeKind::Block(function),
            ..
        } => function,
        _ => None,
    }
}

// The declaration with a number, where there is one.
fn fact_of(graph: &Graph, number: FactId) -> Option<&Fact>
    ensures { option_copied result ≡ slice_get graph.now.facts number.0 }
{
    graph.facts().get(number.0 as usize)
}

// The same by the number of the declaration.
fn begun_at(graph: &Graph, number: FactId) -> Option<FactId>
    ensures { (types : List CxxType) → result ≡ begun.begun_at (slice_get (facts_at types graph.now.facts) number.0) }
{
    match fact_of(graph, number) {
        Some(fact) => begun_by(fact.what),
        None => None,
    }
}

// The first one whose body is a block that a declaration begins in a scope.
fn begun_in(graph: &Graph, scope: ScopeId) -> Option<FactId>
    ensures { (types : List CxxType) → result ≡ definition.begun_in scope.0 (facts_at types graph.now.facts) }
{
    for number in graph.facts_of(scope) {
        if let Some(function) = begun_at(graph, *number) {
            return Some(function);
        }
    }
    None
}

// The function whose parameters have a scope, once its body has begun.
#[tactic(auto, unfolding(cxx_tree::specs::Held::meaning))]
fn function_at(state: &State, scope: ScopeId) -> Option<FactId>
    ensures { result ≡ definition.function_at (meaning state.now).graph scope.0 }
{
    if state.names().is_parameters(state.graph(), scope) {
        begun_in(state.graph(), scope)
    } else {
        None
    }
}

// The scope that holds a scope (3.3).
#[tactic(auto, unfolding(cxx_tree::specs::Held::meaning))]
fn parent(state: &State, scope: ScopeId) -> ScopeId
    ensures { result.0 ≡ parent_of (meaning state.now).graph scope.0 }
{
    state.names().parent(state.graph(), scope)
}

// The function in whose body a scope stands, by a declaration of it.
#[tactic(auto, using(crate::proofs::Begun::round_here, crate::proofs::Begun::round_on, crate::proofs::Begun::round_end, crate::proofs::Begun::round_is))]
fn function_round(state: &State, scope: ScopeId) -> Option<FactId>
    ensures { result ≡ definition.function_round (meaning state.now).graph scope.0 }
{
    let mut now = scope;
    for turn in 0..scope.0 {
        if let Some(function) = function_at(state, now) {
            return Some(function);
        }
        now = parent(state, now);
    }
    None
}

// ---- the object for which it is called

// What belongs to an object of its class.
fn is_nonstatic(member: MemberKind) -> bool
    ensures { result ≡ is_nonstatic_kind member }
{
    match member {
        MemberKind::Free => false,
        MemberKind::Static => false,
        _ => true,
    }
}

// The words behind the parameters of a function (9.3.1).
fn words_of(types: &TypeTable, of: TypeId) -> Cv
    requires { of.0 < length types.now }
    ensures { result ≡ begun.words_of (type_at types.now of.0) }
{
    match types.node(of) {
        TypeNode::Function { cv, .. } => *cv,
        _ => Cv {
            is_const: false,
            is_volatile: false,
        },
    }
}

// The type of a class, with some words.
fn class_with(state: &mut State, class: ClassId, cv: Cv) -> Result<TypeId, Stop>
    requires { class.0 < length (state.old).graph.classes }
    ensures { Makes state.old state.new result (with_cv cv (class_type class.0)) }
{
    let Ok(class) = state.class_type(class) else {
        return Err(Stop::OutOfMemory);
    };
    match state.with_cv(class, cv) {
        Ok(of) => Ok(of),
        Err(_) => Err(Stop::OutOfMemory),
    }
}

// An object of a class, with the words behind the parameters of a function.
#[tactic(auto, using(crate::proofs::Classed::worded))]
fn object_of_class(state: &mut State, of: TypeId, class: ClassId) -> Result<TypeId, Stop>
    requires of { of.0 < length (state.old).types }
    requires class { class.0 < length (state.old).graph.classes }
    ensures { Makes state.old state.new result (definition.with_words (type_of state.old of) (class_type class.0)) }
{
    let cv = words_of(state.types(), of);
    class_with(state, class, cv)
}

// The class to which a scope belongs (9.2).
#[tactic(auto, unfolding(cxx_tree::specs::Held::meaning, crate::specs::This::class_at))]
fn class_at(state: &State, scope: ScopeId) -> Option<ClassId>
    ensures is { definition.class_or_none result ≡ definition.class_at (meaning state.now).graph scope.0 }
    ensures there { IsClassNumberInRange (state.now).graph result }
{
    let graph = state.graph();
    graph.in_range();
    state.names().class_of_scope(graph, scope)
}

// The object for which a function of a class is called.
fn object_in(state: &mut State, scope: ScopeId, of: TypeId) -> Result<Option<TypeId>, Stop>
    requires { of.0 < length (state.old).types }
    ensures { MayMake state.old state.new result (definition.object_of_class (type_of state.old of) (definition.class_at (meaning state.old).graph scope.0)) }
{
    match class_at(state, scope) {
        Some(class) => Ok(Some(object_of_class(state, of, class)?)),
        None => Ok(None),
    }
}

fn object_by(state: &mut State, scope: ScopeId, what: Entity) -> Result<Option<TypeId>, Stop>
    requires { IsEntityBelow (length (state.old).types) what }
    ensures { MayMake state.old state.new result (definition.object_by (meaning state.old).graph scope.0 (declares_at (state.old).types what)) }
{
    match what {
        Entity::Function { of, member, .. } => {
            if is_nonstatic(member) {
                object_in(state, scope, of)
            } else {
                Ok(None)
            }
        }
        _ => Ok(None),
    }
}

// The declaration with a number, where there is one.
fn fact_in(state: &State, number: FactId) -> Option<&Fact>
    ensures is { option_map (fact_at (state.now).types) (option_copied result) ≡ slice_get (meaning state.now).graph.facts number.0 }
    ensures below { IfSome (option_copied result) (λ fact. IsEntityBelow (length (state.now).types) fact.what) }
{
    fact_of(state.graph(), number)
}

fn object_of(state: &mut State, function: FactId) -> Result<Option<TypeId>, Stop>
    ensures { MayMake state.old state.new result (definition.object_of (meaning state.old).graph (Some function)) }
{
    match fact_in(state, function) {
        Some(fact) => {
            let (scope, what) = (fact.scope, fact.what);
            object_by(state, scope, what)
        }
        None => Ok(None),
    }
}

/// The type of `*this` where the reader stands (9.3.2): in the body of a function that belongs to an object of its class,
/// and outside of default arguments (8.3.6).
pub fn this_object(state: &mut State) -> Result<Option<TypeId>, Stop>
    ensures { MayMake state.old state.new result (definition.this_object (meaning state.old)) }
{
    if state.in_default() {
        return Ok(None);
    }
    match function_round(state, state.scope()) {
        Some(function) => object_of(state, function),
        None => Ok(None),
    }
}
