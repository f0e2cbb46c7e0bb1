//! What the expressions of statements become (6.4, 6.5, 6.6.3).

ghost use Rattle.std.specs.Prelude.{◌≡◌, ◌<◌, length, Some};
ghost use Rattle.cxx_expr.specs.Converting.{convert as convert_by};
ghost use Rattle.cxx_language.specs.Asked.{answers};
ghost use Rattle.cxx_language.specs.Statements as definition;
ghost use Rattle.cxx_model.specs.Facts.Declarations.{type_of_option};
ghost use Rattle.cxx_model.specs.Facts.Fitted.{IsTypeNumberBelow};
ghost use Rattle.cxx_model.specs.Types.Trees.{fundamental};
ghost use Rattle.cxx_statements.specs.Views.{IsTarget, target_of};
ghost use Rattle.cxx_cursor.specs.Asking.{IsAsked, IsTreeKnown};
ghost use Rattle.cxx_tree.specs.Held.{meaning, tree, trees, type_of};

use crate::kinds::{condition_place, gives_void, integer_type, is_test, is_void, start_of};
use cxx_answers::Answering;
use cxx_builtin::integral_promoted;
use cxx_expr::conditional::is_of_class;
use cxx_expr::converting::convert;
use cxx_expr::faults::{fault, not_built_at};
use cxx_expr::operands::plain_type;
use cxx_model::{Base, FaultText, Place, Stop, TreeId, TypeId};
use cxx_statements::Target;
use cxx_tree::State;

// An expression as it is converted to a type.
#[tactic(auto, using(crate::proofs::Asked::asked))]
fn convert_to(state: &mut State, place: Place, of: TypeId, number: TreeId) -> Result<TreeId, Stop>
    requires of { of.0 < length (state.old).types }
    requires number { number.0 < length (trees state.old) }
    ensures { IsAsked tree IsTreeKnown state.old state.new result (convert_by answers place (type_of state.old of) (tree state.old number) (meaning state.old)) }
{
    let alloc = state.alloc();
    convert(alloc, &Answering, state, place, of, number)
}

// The same, to a fundamental type.
#[tactic(auto, using(cxx_expr::proofs::Kept::tree_kept, cxx_expr::proofs::Kept::tree_later, cxx_cursor::proofs::Kept::later_refl, cxx_cursor::proofs::Kept::later_trans))]
fn convert_to_plain(
    state: &mut State,
    place: Place,
    of: Base,
    number: TreeId,
) -> Result<TreeId, Stop>
    requires { number.0 < length (trees state.old) }
    ensures { IsAsked tree IsTreeKnown state.old state.new result (convert_by answers place (fundamental of) (tree state.old number) (meaning state.old)) }
{
    let plain = plain_type(state, of)?;
    convert_to(state, place, plain, number)
}

// A condition (6.4, 6.5).
#[tactic(auto, using(cxx_cursor::proofs::Kept::later_refl), unfolding(cxx_language::specs::Statements::tested))]
fn tested(state: &mut State, number: TreeId) -> Result<TreeId, Stop>
    requires { number.0 < length (trees state.old) }
    ensures { IsAsked tree IsTreeKnown state.old state.new result (definition.tested answers (tree state.old number) (meaning state.old)) }
{
    let place = condition_place(state, number);
    if is_of_class(state, number) {
        return Err(Stop::Fault(not_built_at(state.alloc(), place)?));
    }
    if is_test(state, number) {
        return convert_to_plain(state, place, Base::Bool, number);
    }
    Err(Stop::Fault(fault(state.alloc(), place, FaultText::OperandsDoNotFit)?))
}

// What is promoted, given its integral type.
#[tactic(auto, using(cxx_cursor::proofs::Kept::later_refl))]
fn promoted_by(state: &mut State, number: TreeId, of: Option<Base>) -> Result<TreeId, Stop>
    requires { number.0 < length (trees state.old) }
    ensures { IsAsked tree IsTreeKnown state.old state.new result (definition.promoted_by answers (tree state.old number) of (meaning state.old)) }
{
    let place = condition_place(state, number);
    match of {
        None => Err(Stop::Fault(fault(state.alloc(), place, FaultText::OperandsDoNotFit)?)),
        Some(of) => convert_to_plain(state, place, integral_promoted(of), number),
    }
}

// What is switched over (6.4.2).
#[tactic(auto, using(cxx_cursor::proofs::Kept::later_refl), unfolding(cxx_language::specs::Statements::switched))]
fn switched(state: &mut State, number: TreeId) -> Result<TreeId, Stop>
    requires { number.0 < length (trees state.old) }
    ensures { IsAsked tree IsTreeKnown state.old state.new result (definition.switched answers (tree state.old number) (meaning state.old)) }
{
    if is_of_class(state, number) {
        let place = condition_place(state, number);
        return Err(Stop::Fault(not_built_at(state.alloc(), place)?));
    }
    let of = integer_type(state, number);
    promoted_by(state, number, of)
}

// The constant of a label, by the type of its switch (6.4.2).
#[tactic(auto, using(cxx_cursor::proofs::Kept::later_refl), unfolding(cxx_language::specs::Statements::labelled))]
fn labelled(state: &mut State, of: TypeId, number: TreeId) -> Result<TreeId, Stop>
    requires of { of.0 < length (state.old).types }
    requires number { number.0 < length (trees state.old) }
    ensures { IsAsked tree IsTreeKnown state.old state.new result (definition.labelled answers (type_of state.old of) (tree state.old number) (meaning state.old)) }
{
    let start = start_of(state, number);
    match integer_type(state, number) {
        None => Err(Stop::Fault(fault(state.alloc(), start, FaultText::NotAConstant)?)),
        Some(_) => convert_to(state, start, of, number),
    }
}

// What the function returns whose body is read.
#[tactic(auto, unfolding(cxx_tree::specs::Held::meaning))]
fn result_here(state: &State) -> Option<TypeId>
    ensures is { type_of_option (state.now).types result ≡ (meaning state.now).here.result }
    ensures below { IsTypeNumberBelow (length (state.now).types) result }
{
    state.result()
}

// What a function answers that returns a type.
#[tactic(auto, using(cxx_cursor::proofs::Kept::later_refl))]
fn returned_as(state: &mut State, of: TypeId, number: TreeId) -> Result<TreeId, Stop>
    requires of { of.0 < length (state.old).types }
    requires number { number.0 < length (trees state.old) }
    ensures { IsAsked tree IsTreeKnown state.old state.new result (definition.returned_by answers (tree state.old number) (Some (type_of state.old of)) (meaning state.old)) }
{
    let start = start_of(state, number);
    if is_void(state.types(), of) {
        if gives_void(state, number) {
            return Ok(number);
        }
        return Err(Stop::Fault(fault(state.alloc(), start, FaultText::OperandsDoNotFit)?));
    }
    convert_to(state, start, of, number)
}

// The same, where no body is read.
#[tactic(auto, using(cxx_cursor::proofs::Kept::later_refl))]
fn returned_by(state: &mut State, of: Option<TypeId>, number: TreeId) -> Result<TreeId, Stop>
    requires of { IsTypeNumberBelow (length (state.old).types) of }
    requires number { number.0 < length (trees state.old) }
    ensures { IsAsked tree IsTreeKnown state.old state.new result (definition.returned_by answers (tree state.old number) (type_of_option (state.old).types of) (meaning state.old)) }
{
    match of {
        None => Ok(number),
        Some(of) => returned_as(state, of, number),
    }
}

// What a function answers (6.6.3).
#[tactic(auto, unfolding(cxx_language::specs::Statements::returned))]
fn returned(state: &mut State, number: TreeId) -> Result<TreeId, Stop>
    requires { number.0 < length (trees state.old) }
    ensures { IsAsked tree IsTreeKnown state.old state.new result (definition.returned answers (tree state.old number) (meaning state.old)) }
{
    let of = result_here(state);
    returned_by(state, of, number)
}

/// What an expression that was read as a whole becomes.
pub(crate) fn converted(state: &mut State, target: Target, number: TreeId) -> Result<TreeId, Stop>
    requires target { IsTarget state.old target }
    requires number { number.0 < length (trees state.old) }
    ensures { IsAsked tree IsTreeKnown state.old state.new result (definition.become answers (target_of state.old target) (tree state.old number) (meaning state.old)) }
{
    match target {
        Target::Bool => tested(state, number),
        Target::Promoted => switched(state, number),
        Target::Of(of) => labelled(state, of, number),
        Target::Result => returned(state, number),
    }
}
