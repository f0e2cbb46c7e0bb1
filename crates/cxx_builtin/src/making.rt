//! Types that were decided, made.
ghost use Rattle.std.specs.Prelude.{◌≡◌, ◌<◌, [], ◌∷◌, length, IfOk};
ghost use Rattle.cxx_model.specs.Facts.Fitted.{Fitted};
ghost use Rattle.cxx_model.specs.Types.Numbers.{type_at};
ghost use Rattle.cxx_model.specs.Types.Trees.{pointer_to, with_cv, unqualified, merged as merged_of};
ghost use Rattle.cxx_meaning.specs.Conversions.Pointers as pointers;
ghost use Rattle.cxx_types.specs.Makes.{Makes};
ghost use Rattle.cxx_builtin.specs.Plans.{sketch_at, plan_at, second_at, joined_at, IsNumberBelow, IsPlanBelow, IsSketchBelow};
ghost use Rattle.cxx_standard.specs.Views.{signature_at};
ghost use Rattle.cxx_builtin.specs.Built.{Builds, MakesList};

use crate::plan::{Plan, Sketch};
use cxx_graph::Graph;
use cxx_model::{BuiltIn, Cv, Listed, OutOfMemory, TypeId, TypeIdList, TypeNode};
use cxx_standard::{cv_of, pointee, same_cv};
use cxx_types::TypeTable;
use std::alloc::Global;

/// A pointer to a type with further cv words.
#[tactic(auto, using(crate::proofs::Drawing::added_made, crate::proofs::Drawing::added_stopped))]
fn added(types: &mut TypeTable, of: TypeId, cv: Cv) -> Result<TypeId, OutOfMemory>
    requires { of.0 < length types.old }
    ensures { Makes types.old types.new result (pointer_to (with_cv cv (type_at types.old of.0))) }
{
    let added = types.with_cv(of, cv)?;
    types.pointer_to(added)
}

/// The cv words of two types together, from outside.
#[derive(Drop)]
struct JoinedLevels {
    levels: Listed<Cv>,
    adds: bool,
}

fn const_if(adds: bool, cv: Cv) -> Cv
    ensures { result ≡ pointers.const_if adds cv }
{
    Cv {
        is_const: cv.is_const || adds,
        is_volatile: cv.is_volatile,
    }
}

fn merged(one: Cv, two: Cv) -> Cv
    ensures { result ≡ merged_of one two }
{
    Cv {
        is_const: one.is_const || two.is_const,
        is_volatile: one.is_volatile || two.is_volatile,
    }
}

fn joined(
    alloc: Global,
    types: &TypeTable,
    one: Option<TypeId>,
    two: Option<TypeId>,
) -> Result<JoinedLevels, OutOfMemory>
    requires one_below { IsNumberBelow (length types.now) one }
    requires two_below { IsNumberBelow (length types.now) two }
    ensures { IfOk result (λ both. joined_at both ≡ pointers.joined (signature_at types.now one) (signature_at types.now two)) }
{
    match one {
        None => Ok(JoinedLevels {
            levels: Listed::new(alloc),
            adds: false,
        }),
        Some(one) => match two {
            None => Ok(JoinedLevels {
                levels: Listed::new(alloc),
                adds: false,
            }),
            Some(two) => {
                let inner = joined(alloc, types, pointee(types, one), pointee(types, two))?;
                joined_level(inner, cv_of(types, one), cv_of(types, two))
            }
        },
    }
}

fn joined_level(inner: JoinedLevels, one: Cv, two: Cv) -> Result<JoinedLevels, OutOfMemory>
    ensures { IfOk result (λ both. joined_at both ≡ pointers.joined_level one two (joined_at inner)) }
{
    let JoinedLevels { mut levels, adds } = inner;
    levels.push_front(const_if(adds, merged(one, two)))?;
    Ok(JoinedLevels {
        levels,
        adds: adds || !same_cv(one, two),
    })
}

/// A type with other cv words: its own, and those behind each `*`.
#[cycle(leveled)]
pub fn leveled(types: &mut TypeTable, of: TypeId, levels: &[Cv]) -> Result<TypeId, OutOfMemory>
    requires { of.0 < length types.old }
    ensures { Makes types.old types.new result (pointers.leveled levels.now (type_at types.old of.0)) }
{
    match levels {
        [] => Ok(of),
        [cv, inner @ ..] => match types.node(of) {
            TypeNode::Pointer(to) => {
                let to = *to;
                leveled_pointer(types, to, *cv, inner)
            }
            TypeNode::Qualified(_, bare) => {
                let bare = *bare;
                leveled(types, bare, levels)
            }
            _ => other_cv(types, of, *cv),
        },
    }
}

#[cycle(leveled)]
fn leveled_pointer(
    types: &mut TypeTable,
    to: TypeId,
    cv: Cv,
    levels: &[Cv],
) -> Result<TypeId, OutOfMemory>
    requires { to.0 < length types.old }
    ensures { Makes types.old types.new result (with_cv cv (pointer_to (pointers.leveled levels.now (type_at types.old to.0)))) }
{
    let to = leveled(types, to, levels)?;
    with_pointer(types, to, cv)
}

fn with_pointer(types: &mut TypeTable, to: TypeId, cv: Cv) -> Result<TypeId, OutOfMemory>
    requires { to.0 < length types.old }
    ensures { Makes types.old types.new result (with_cv cv (pointer_to (type_at types.old to.0))) }
{
    let pointer = types.pointer_to(to)?;
    types.with_cv(pointer, cv)
}

fn other_cv(types: &mut TypeTable, of: TypeId, cv: Cv) -> Result<TypeId, OutOfMemory>
    requires { of.0 < length types.old }
    ensures { Makes types.old types.new result (with_cv cv (unqualified (type_at types.old of.0))) }
{
    let bare = types.strip_cv(of)?;
    types.with_cv(bare, cv)
}

/// The pointer to which pointers to two similar types are converted (5.9).
fn common_similar(
    alloc: Global,
    types: &mut TypeTable,
    one: TypeId,
    two: TypeId,
) -> Result<TypeId, OutOfMemory>
    requires one_known { one.0 < length types.old }
    requires two_known { two.0 < length types.old }
    ensures { Makes types.old types.new result (pointers.common_similar (type_at types.old one.0) (type_at types.old two.0)) }
{
    let both = joined(alloc, types, Some(one), Some(two))?;
    let of = leveled(types, one, both.levels.as_slice())?;
    types.pointer_to(of)
}

/// The type that a sketch is of.
#[tactic(auto, using(cxx_types::proofs::Making::makes_here))]
fn draw(alloc: Global, types: &mut TypeTable, sketch: Sketch) -> Result<TypeId, OutOfMemory>
    requires { IsSketchBelow (length types.old) sketch }
    ensures { Makes types.old types.new result (sketch_at types.old sketch) }
{
    match sketch {
        Sketch::Plain(of) => types.plain(of),
        Sketch::Known(of) => Ok(of),
        Sketch::Value(of) => types.adjust(of),
        Sketch::Bare(of) => types.strip_cv(of),
        Sketch::PointerTo(of) => types.pointer_to(of),
        Sketch::Added(of, cv) => added(types, of, cv),
        Sketch::Similar(one, two) => common_similar(alloc, types, one, two),
    }
}

// One type, made and listed.
fn listed(
    alloc: Global,
    graph: &Graph,
    types: &mut TypeTable,
    one: Sketch,
) -> Result<TypeIdList, OutOfMemory>
    requires below { IsSketchBelow (length types.old) one }
    requires fitted { Fitted graph.now types.old }
    ensures { MakesList graph.now types.old types.new result (sketch_at types.old one ∷ []) }
{
    let _ = graph;
    let mut numbers = Listed::new(alloc);
    let number = draw(alloc, types, one)?;
    numbers.push(number)?;
    Ok(numbers)
}

// Two types, made and listed.
fn listed_two(
    alloc: Global,
    graph: &Graph,
    types: &mut TypeTable,
    one: Sketch,
    two: Sketch,
) -> Result<TypeIdList, OutOfMemory>
    requires one_below { IsSketchBelow (length types.old) one }
    requires two_below { IsSketchBelow (length types.old) two }
    requires fitted { Fitted graph.now types.old }
    ensures { MakesList graph.now types.old types.new result (sketch_at types.old one ∷ sketch_at types.old two ∷ []) }
{
    let mut numbers = listed(alloc, graph, types, one)?;
    let number = draw(alloc, types, two)?;
    numbers.push(number)?;
    Ok(numbers)
}

fn listed_operands(
    alloc: Global,
    graph: &Graph,
    types: &mut TypeTable,
    plan: Plan,
) -> Result<TypeIdList, OutOfMemory>
    requires below { IsPlanBelow (length types.old) plan }
    requires fitted { Fitted graph.now types.old }
    ensures { MakesList graph.now types.old types.new result (sketch_at types.old plan.first ∷ second_at types.old plan.second) }
{
    match plan.second {
        None => listed(alloc, graph, types, plan.first),
        Some(second) => listed_two(alloc, graph, types, plan.first, second),
    }
}

/// The types of a plan, made.
pub(crate) fn built(
    alloc: Global,
    graph: &Graph,
    types: &mut TypeTable,
    plan: Plan,
) -> Result<BuiltIn, OutOfMemory>
    requires below { IsPlanBelow (length types.old) plan }
    requires fitted { Fitted graph.now types.old }
    ensures { Builds graph.now types.old types.new result (plan_at types.old plan) }
{
    let operands = listed_operands(alloc, graph, types, plan)?;
    let whole = draw(alloc, types, plan.result)?;
    Ok(BuiltIn {
        operands,
        result: whole,
        lvalue: plan.lvalue,
    })
}
