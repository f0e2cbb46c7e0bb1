//! Which function a call means (13.3).

ghost use Rattle.std.specs.Prelude.{◌≡◌, ◌≤◌, ◌<◌, ◌++◌, nat_lt, length, List, Some, IfErr, IfOk, IfSome, OnOk};
ghost use Rattle.cxx_found.specs.Associated.{given};
ghost use Rattle.cxx_answers.specs.Answers as definition;
ghost use Rattle.cxx_answers.specs.Answers.{called_as};
ghost use Rattle.cxx_answers.specs.Besides.{besides_in};
ghost use Rattle.cxx_answers.specs.Ruled.{IsCallBelow, IsRulingBelow, KeepsCall, asked_of, made_by, ruled as ruled_of, ruled_by, ruling_at};
ghost use Rattle.cxx_expr.specs.Calls.{bare_word};
ghost use Rattle.cxx_expr.specs.Views.{AreFactsKnown, AreOperandsBelow, IsChosen, chosen_of, member_question_of, numbered, operands_in, question_of};
ghost use Rattle.cxx_model.specs.declared.limits.TheConstants as limits;
ghost use Rattle.cxx_model.specs.Facts.Declarations.{graph_at};
ghost use Rattle.cxx_model.specs.Facts.Fitted.{Fitted};
ghost use Rattle.cxx_model.specs.declared.types.FactId.{FactId as FactNumber};
ghost use Rattle.cxx_model.specs.Stops.{Faulty, Gives, undeclared_at};
ghost use Rattle.cxx_model.specs.Types.Numbers.{AreTypesBelow};
ghost use Rattle.cxx_overload.specs.Calls.{decided as decided_of};
ghost use Rattle.cxx_overload.specs.Decisions.{IsDecisionBelow, decision_at};
ghost use Rattle.cxx_overload.specs.Views.{AreOperandsBelow as AreBelow, IsObject, numbered_in, object_at, operands_at, passed};
ghost use Rattle.cxx_tree.specs.Answered.{IsAnswered};
ghost use Rattle.cxx_tree.specs.Held.{call_at, meaning};
ghost use Rattle.cxx_tree.specs.Told.{told};
ghost use Rattle.cxx_overload.specs.Choosers.{told_by};
ghost use Rattle.cxx_overload.specs.Told.{HasStayed, told_more};

use crate::object::object_of;
use crate::record::decided;
use crate::seen::telling_of;
use cxx_expr::Chosen;
use cxx_expr::faults::fault;
use cxx_graph::Graph;
use cxx_model::limits::MOST_ARGUMENTS;
use cxx_model::{
    FactId, FactList, Fault, FaultText, LimitKind, Listed, Operand, OperandList, OutOfMemory,
    Place, Stop, TypeId, TypeIdList, Word,
};
use cxx_overload::{Chooser, Choosing, Decision, Object};
use cxx_tree::{Decided, State};
use cxx_types::TypeTable;
use std::alloc::{AllocError, Global};

/// A call that means a function, before it is kept.
#[derive(Drop)]
pub struct Ruling {
    /// The function that it means, by its first declaration.
    pub target: FactId,
    pub parameters: TypeIdList,
    /// What that function gives.
    pub result: TypeId,
    pub ellipsis: bool,
    /// What is kept of the call.
    pub call: Decided,
}

#[tactic(auto, using(crate::proofs::Records::types_same))]
fn ruled(
    alloc: Global,
    types: &TypeTable,
    place: Place,
    object: Option<Object>,
    operands: OperandList,
    decision: &Decision,
) -> Result<Ruling, AllocError>
    requires object { IfSome object (IsObject types.now) }
    requires operands { AreBelow (length types.now) operands }
    requires decision { IsDecisionBelow (length types.now) (length (passed object operands)) decision.now }
    ensures is { IfOk result (λ one. ruling_at types.now one ≡ ruled_of (decision_at types.now place object operands decision.now)) }
    ensures below { IfOk result (IsRulingBelow (length types.now)) }
    ensures place { IfOk result (λ one. one.call.place ≡ place) }
{
    let meant = &decision.meant;
    Ok(Ruling {
        target: meant.number,
        parameters: TypeIdList::from_slice(alloc, meant.parameters)?,
        result: meant.result,
        ellipsis: meant.ellipsis,
        call: decided(alloc, types, place, object, operands, decision)?,
    })
}

// Asks which function a call means. Who is asked is not seen here, and so not whether it tells where that was.
fn rule<H: Chooser>(
    alloc: Global,
    graph: &Graph,
    types: &TypeTable,
    place: Place,
    functions: &[FactId],
    object: Option<Object>,
    operands: OperandList,
    chooser: &mut H,
) -> Result<Ruling, Stop>
    requires few { length operands ≤ limits.MOST_ARGUMENTS }
    requires object { IfSome object (IsObject types.now) }
    requires operands { AreBelow (length types.now) operands }
    requires fitted { Fitted graph.now types.now }
    ensures is { Gives (ruling_at types.now) result (ruled_by (decided_of place (object_at types.now object) (operands_at types.now operands) (graph_at types.now graph.now) (numbered_in (graph_at types.now graph.now) functions.now))) }
    ensures below { IfOk result (IsRulingBelow (length types.now)) }
    ensures place { IfOk result (λ one. one.call.place ≡ place) }
    ensures asked { OnOk result (H.told chooser.new ≡ told_more place (H.told chooser.old)) }
    ensures stays { IfErr result (HasStayed (H.told chooser.old) (H.told chooser.new)) }
{
    let arguments = operands.as_slice();
    let decision = chooser.choose(alloc, graph, types, place, object, arguments, functions)?;
    Ok(ruled(alloc, types, place, object, operands, &decision)?)
}

// The same of the state.
#[tactic(auto, using(crate::proofs::Asked::ruling_same, crate::proofs::Asked::operands_below))]
fn rule_here<H: Chooser>(
    alloc: Global,
    state: &State,
    place: Place,
    functions: &[FactId],
    object: Option<Object>,
    operands: OperandList,
    chooser: &mut H,
) -> Result<Ruling, Stop>
    requires few { length operands ≤ limits.MOST_ARGUMENTS }
    requires object { IfSome object (IsObject (state.now).types) }
    requires operands { AreOperandsBelow (length (state.now).types) operands }
    ensures is { Gives (ruling_at (state.now).types) result (ruled_by (decided_of place (object_at (state.now).types object) (operands_in (state.now).types operands) (meaning state.now).graph (numbered state.now functions.now))) }
    ensures below { IfOk result (IsRulingBelow (length (state.now).types)) }
    ensures place { IfOk result (λ one. one.call.place ≡ place) }
    ensures asked { OnOk result (H.told chooser.new ≡ told_more place (H.told chooser.old)) }
    ensures stays { IfErr result (HasStayed (H.told chooser.old) (H.told chooser.new)) }
{
    rule(
        alloc,
        state.graph(),
        state.types(),
        place,
        functions,
        object,
        operands,
        chooser,
    )
}

// The word of a call, where it is bare.
fn word_of<'w>(is_bare: bool, word: &'w [u8]) -> &'w [u8]
    ensures { result.now ≡ definition.word_or_none (bare_word is_bare word.now) }
{
    if is_bare { word } else { &[] }
}

// A name that means nothing where it stands, and is found by no argument.
fn undeclared(
    alloc: Global,
    place: Place,
    is_bare: bool,
    word: &[u8],
) -> Result<Box<Fault>, AllocError>
    ensures { IfOk result (λ at. Faulty at.value ≡ undeclared_at place (definition.word_or_none (bare_word is_bare word.now))) }
{
    let word = Word::from_slice(alloc, word_of(is_bare, word))?;
    fault(alloc, place, FaultText::UndeclaredName(word))
}

// The same of a call that may mean no function.
#[tactic(auto, using(crate::proofs::Asked::ruled_none, crate::proofs::Asked::ruled_some))]
fn rule_among<H: Chooser>(
    alloc: Global,
    state: &State,
    place: Place,
    is_bare: bool,
    word: &[u8],
    all: &[FactId],
    object: Option<Object>,
    operands: OperandList,
    chooser: &mut H,
) -> Result<Ruling, Stop>
    requires few { length operands ≤ limits.MOST_ARGUMENTS }
    requires all { AreFactsKnown state.now all.now }
    requires object { IfSome object (IsObject (state.now).types) }
    requires operands { AreOperandsBelow (length (state.now).types) operands }
    ensures is { (functions : List FactNumber) → Gives (ruling_at (state.now).types) result (ruled_by (definition.decided_among (asked_of state.now place is_bare word.now functions object operands) (meaning state.now) (numbered state.now all.now))) }
    ensures below { IfOk result (IsRulingBelow (length (state.now).types)) }
    ensures place { IfOk result (λ one. one.call.place ≡ place) }
    ensures asked { OnOk result (H.told chooser.new ≡ told_more place (H.told chooser.old)) }
    ensures stays { IfErr result (HasStayed (H.told chooser.old) (H.told chooser.new)) }
{
    match all {
        [] => Err(Stop::Fault(undeclared(alloc, place, is_bare, word)?)),
        _ => rule_here(alloc, state, place, all, object, operands, chooser),
    }
}

// Keeps a call and who was asked, and answers its number.
fn keep(state: &mut State, call: Decided, chooser: Choosing) -> Result<u32, Stop>
    requires below { IsCallBelow (length (state.old).types) call }
    requires told { told_by chooser ≡ told_more call.place (told state.old) }
    ensures { KeepsCall state.old state.new result (call_at (state.old).types call) }
{
    match state.add_call(call, chooser) {
        Ok(number) => Ok(number),
        Err(_) => Err(Stop::OutOfMemory),
    }
}

#[tactic(auto, using(cxx_expr::proofs::Kept::types_kept, cxx_expr::proofs::Kept::types_later, cxx_expr::proofs::Kept::type_kept, cxx_expr::proofs::Kept::type_later))]
fn made(state: &mut State, ruling: Ruling, chooser: Choosing) -> Result<Chosen, Stop>
    requires below { IsRulingBelow (length (state.old).types) ruling }
    requires told { told_by chooser ≡ told_more ruling.call.place (told state.old) }
    ensures { IsAnswered chosen_of IsChosen state.old state.new result (made_by (ruling_at (state.old).types ruling) (meaning state.old)) }
{
    let Ruling {
        target,
        parameters,
        result,
        ellipsis,
        call,
    } = ruling;
    let number = keep(state, call, chooser)?;
    Ok(Chosen {
        target,
        parameters,
        result,
        ellipsis,
        number,
    })
}

// The same of arguments that are not too many, asked of who was taken out of the state.
#[tactic(auto, using(crate::proofs::Asked::call_stops, crate::proofs::Asked::call_made, cxx_expr::proofs::Kept::later_refl))]
fn called_by(
    alloc: Global,
    state: &mut State,
    place: Place,
    is_bare: bool,
    word: &[u8],
    all: &[FactId],
    object: Option<Object>,
    operands: OperandList,
    chooser: Choosing,
) -> Result<Chosen, Stop>
    requires few { length operands ≤ limits.MOST_ARGUMENTS }
    requires all { AreFactsKnown state.old all.now }
    requires object { IfSome object (IsObject (state.old).types) }
    requires operands { AreOperandsBelow (length (state.old).types) operands }
    requires told { told_by chooser ≡ told state.old }
    ensures { (functions : List FactNumber) → IsAnswered chosen_of IsChosen state.old state.new result (called_as (meaning state.old) (definition.decided_among (asked_of state.old place is_bare word.now functions object operands) (meaning state.old) (numbered state.old all.now))) }
{
    let mut asked = chooser;
    match rule_among(
        alloc, state, place, is_bare, word, all, object, operands, &mut asked,
    ) {
        Ok(ruling) => made(state, ruling, asked),
        Err(Stop::OutOfMemory) => Err(Stop::OutOfMemory),
        Err(why) => {
            state.put_chooser(asked);
            Err(why)
        }
    }
}

// The same of the state.
fn called(
    alloc: Global,
    state: &mut State,
    place: Place,
    is_bare: bool,
    word: &[u8],
    all: &[FactId],
    object: Option<Object>,
    operands: OperandList,
) -> Result<Chosen, Stop>
    requires few { length operands ≤ limits.MOST_ARGUMENTS }
    requires all { AreFactsKnown state.old all.now }
    requires object { IfSome object (IsObject (state.old).types) }
    requires operands { AreOperandsBelow (length (state.old).types) operands }
    ensures { (functions : List FactNumber) → IsAnswered chosen_of IsChosen state.old state.new result (called_as (meaning state.old) (definition.decided_among (asked_of state.old place is_bare word.now functions object operands) (meaning state.old) (numbered state.old all.now))) }
{
    match state.take_chooser() {
        Some(chooser) => called_by(
            alloc, state, place, is_bare, word, all, object, operands, chooser,
        ),
        None => Err(Stop::OutOfMemory),
    }
}

// Whether there are more arguments than a call may have.
fn are_too_many(operands: &[Operand]) -> bool
    ensures { result ≡ nat_lt limits.MOST_ARGUMENTS (length operands.now) }
{
    operands.len() > MOST_ARGUMENTS as usize
}

// ---- what a call may mean

// The types of some operands.
#[tactic(auto, using(crate::proofs::Asked::types_end))]
fn types_of(
    alloc: Global,
    types: &TypeTable,
    operands: &[Operand],
) -> Result<TypeIdList, AllocError>
    requires { AreOperandsBelow (length types.now) operands.now }
    ensures is { IfOk result (λ of. given types.now of ≡ definition.types_of_operands (operands_in types.now operands.now)) }
    ensures below { IfOk result (AreTypesBelow (length types.now)) }
{
    let _ = types;
    let mut of = Listed::new(alloc);
    for operand in operands {
        of.push(operand.of)?;
    }
    Ok(of)
}

// The functions of a name that the types of operands find besides others, with the declarations that tell their default
// arguments.
#[tactic(auto, using(crate::proofs::Found::besides_are, crate::proofs::Found::all_known, crate::proofs::Found::all_below))]
fn found_besides(
    alloc: Global,
    state: &State,
    word: &[u8],
    functions: &[FactId],
    operands: &[Operand],
) -> Result<FactList, OutOfMemory>
    requires functions { AreFactsKnown state.now functions.now }
    requires operands { AreOperandsBelow (length (state.now).types) operands.now }
    ensures is { IfOk result (λ more. numbered state.now more ≡ besides_in (meaning state.now) (numbered state.now functions.now) (Some word.now) (operands_in (state.now).types operands.now)) }
    ensures known { IfOk result (AreFactsKnown state.now) }
{
    let of = types_of(alloc, state.types(), operands)?;
    let telling = telling_of(state);
    telling.besides(alloc, state.scope(), word, functions, &of)
}

// The same of a name that may not be bare: then nothing is found.
#[tactic(auto, using(crate::proofs::Found::no_besides))]
fn besides(
    alloc: Global,
    state: &State,
    is_bare: bool,
    word: &[u8],
    functions: &[FactId],
    operands: &[Operand],
) -> Result<FactList, OutOfMemory>
    requires functions { AreFactsKnown state.now functions.now }
    requires operands { AreOperandsBelow (length (state.now).types) operands.now }
    ensures is { IfOk result (λ more. numbered state.now more ≡ besides_in (meaning state.now) (numbered state.now functions.now) (bare_word is_bare word.now) (operands_in (state.now).types operands.now)) }
    ensures known { IfOk result (AreFactsKnown state.now) }
{
    if is_bare {
        found_besides(alloc, state, word, functions, operands)
    } else {
        Ok(Listed::new(alloc))
    }
}

// Some declarations, and others behind them.
#[tactic(auto, using(crate::proofs::Found::numbered_more, crate::proofs::Found::known_more))]
fn both(
    alloc: Global,
    state: &State,
    functions: &[FactId],
    more: &[FactId],
) -> Result<FactList, AllocError>
    requires functions { AreFactsKnown state.now functions.now }
    requires more { AreFactsKnown state.now more.now }
    ensures is { IfOk result (λ all. numbered state.now all ≡ numbered state.now functions.now ++ numbered state.now more.now) }
    ensures known { IfOk result (AreFactsKnown state.now) }
{
    let _ = state;
    let mut all = Vec::from_slice(alloc, functions)?;
    all.extend_from_slice(more)?;
    Ok(FactList::from_vec(all))
}

// What a call may mean: what its name means where it stands, and what the types of its arguments find besides (3.4.2).
#[tactic(auto, unfolding(crate::specs::Answers::functions_of_call))]
fn functions_of_call(
    alloc: Global,
    state: &State,
    place: Place,
    is_bare: bool,
    word: &[u8],
    functions: &[FactId],
    object: Option<Object>,
    operands: &[Operand],
) -> Result<FactList, OutOfMemory>
    requires functions { AreFactsKnown state.now functions.now }
    requires operands { AreOperandsBelow (length (state.now).types) operands.now }
    ensures is { IfOk result (λ all. numbered state.now all ≡ definition.functions_of_call (meaning state.now).graph (meaning state.now).here.scope (asked_of state.now place is_bare word.now functions.now object operands.now)) }
    ensures known { IfOk result (AreFactsKnown state.now) }
{
    let _ = place;
    let _ = object;
    let more = besides(alloc, state, is_bare, word, functions, operands)?;
    Ok(both(alloc, state, functions, more.as_slice())?)
}

// Which function a call means whose arguments are not too many.
#[tactic(auto, using(crate::proofs::Asked::called_same, cxx_expr::proofs::Kept::later_refl))]
fn called_here(
    alloc: Global,
    state: &mut State,
    place: Place,
    is_bare: bool,
    word: &[u8],
    functions: &[FactId],
    object: Option<Object>,
    operands: OperandList,
) -> Result<Chosen, Stop>
    requires few { length operands ≤ limits.MOST_ARGUMENTS }
    requires functions { AreFactsKnown state.old functions.now }
    requires object { IfSome object (IsObject (state.old).types) }
    requires operands { AreOperandsBelow (length (state.old).types) operands }
    ensures { IsAnswered chosen_of IsChosen state.old state.new result (called_as (meaning state.old) (definition.decided_among (asked_of state.old place is_bare word.now functions.now object operands) (meaning state.old) (definition.functions_of_call (meaning state.old).graph (meaning state.old).here.scope (asked_of state.old place is_bare word.now functions.now object operands)))) }
{
    let all = match functions_of_call(
        alloc,
        state,
        place,
        is_bare,
        word,
        functions,
        object,
        operands.as_slice(),
    ) {
        Ok(all) => all,
        Err(_) => return Err(Stop::OutOfMemory),
    };
    called(
        alloc,
        state,
        place,
        is_bare,
        word,
        all.as_slice(),
        object,
        operands,
    )
}

// Which function a call means, by its object, where it has one.
#[tactic(auto, using(cxx_expr::proofs::Kept::later_refl), unfolding(crate::specs::Answers::call_here))]
fn call_with(
    alloc: Global,
    state: &mut State,
    place: Place,
    is_bare: bool,
    word: &[u8],
    functions: &[FactId],
    object: Option<Object>,
    operands: OperandList,
) -> Result<Chosen, Stop>
    requires functions { AreFactsKnown state.old functions.now }
    requires object { IfSome object (IsObject (state.old).types) }
    requires operands { AreOperandsBelow (length (state.old).types) operands }
    ensures { IsAnswered chosen_of IsChosen state.old state.new result (definition.call_here (asked_of state.old place is_bare word.now functions.now object operands) (meaning state.old)) }
{
    if are_too_many(operands.as_slice()) {
        return Err(Stop::Limit(LimitKind::Arguments));
    }
    called_here(
        alloc, state, place, is_bare, word, functions, object, operands,
    )
}

/// Which function a call at a place means, given the word that is called, whether it is bare, the functions that its name
/// means, and what the arguments give (13.3). A name without brackets and qualifiers means besides what the types of the
/// arguments find (3.4.2). The call is kept. It stops at more arguments than a call may have, where there is no function,
/// where none is viable, where none is best, at too many candidates, and at what needs a class.
pub fn call_here(
    alloc: Global,
    state: &mut State,
    place: Place,
    is_bare: bool,
    word: &[u8],
    functions: &[FactId],
    operands: OperandList,
) -> Result<Chosen, Stop>
    requires functions { AreFactsKnown state.old functions.now }
    requires operands { AreOperandsBelow (length (state.old).types) operands }
    ensures { IsAnswered chosen_of IsChosen state.old state.new result (definition.call_here (question_of state.old place is_bare word.now functions.now operands) (meaning state.old)) }
{
    call_with(
        alloc, state, place, is_bare, word, functions, None, operands,
    )
}

/// The same of a call of a member, given its object as an lvalue, and the functions that its name means in the class of the
/// object (13.3.1.1.1). The types of the arguments find nothing besides. The object is kept before the arguments.
#[tactic(auto, using(crate::proofs::Objects::member_called, crate::proofs::Objects::facts_later, crate::proofs::Objects::operands_later))]
pub fn call_member_here(
    alloc: Global,
    state: &mut State,
    place: Place,
    object: Operand,
    functions: &[FactId],
    operands: OperandList,
) -> Result<Chosen, Stop>
    requires object { object.of.0 < length (state.old).types }
    requires functions { AreFactsKnown state.old functions.now }
    requires operands { AreOperandsBelow (length (state.old).types) operands }
    ensures { IsAnswered chosen_of IsChosen state.old state.new result (definition.call_here (member_question_of state.old place object functions.now operands) (meaning state.old)) }
{
    match object_of(state, object) {
        Ok(object) => call_with(
            alloc,
            state,
            place,
            false,
            &[],
            functions,
            Some(object),
            operands,
        ),
        Err(_) => Err(Stop::OutOfMemory),
    }
}
