//! Who answers what is asked of expressions by the declarations so far.

use crate::calls::{call_here, call_member_here};
use crate::constants::is_null_here;
use crate::defaults::fallback_here;
use crate::making::{built_in_here, cast_here, conditional_here};
use crate::measured::type_of_operand;
use crate::members::{member_here, naming_here, qualifier_here};
use crate::names::{bound_here, name_here};
use crate::sizes::size_here;
use cxx_builtin::{BuiltIn, ResultFault};
use cxx_casts::CastSteps;
use cxx_expr::{Chosen, Questions};
use cxx_meaning::SizeReason;
use cxx_model::{
    ClassId, FactId, FactList, Operand, OperandList, OutOfMemory, Path, Place, Stop, TreeId,
    TypeId, Wait,
};
use cxx_tree::State;

/// What is asked of expressions is answered by the declarations so far.
pub struct Answering;

impl Questions for Answering {
    ghost use Rattle.cxx_answers.specs.Answers.{questions};

    ghost asks = { λ self. questions };

    ghost is_ready = { λ self. Unit {0} };

    #[tactic(auto, unfolding(crate::specs::Answers::questions))]
    fn name(&self, state: &mut State, path: &Path) -> Result<FactList, Stop> {
        name_here(state.alloc(), state, path)
    }

    #[tactic(auto, unfolding(crate::specs::Answers::questions))]
    fn naming(&self, state: &mut State, class: ClassId, path: &Path) -> Result<ClassId, Stop> {
        naming_here(state.alloc(), state, class, path)
    }

    #[tactic(auto, unfolding(crate::specs::Answers::questions))]
    fn member(&self, state: &mut State, class: ClassId, path: &Path) -> Result<FactList, Stop> {
        member_here(state.alloc(), state, class, path)
    }

    #[tactic(auto, unfolding(crate::specs::Answers::questions))]
    fn bound(&self, state: &mut State, place: Place, target: FactId) -> Result<(), Stop> {
        bound_here(state, place, target)
    }

    #[tactic(auto, unfolding(crate::specs::Answers::questions))]
    fn call(
        &self,
        state: &mut State,
        place: Place,
        is_bare: bool,
        word: &[u8],
        functions: &[FactId],
        operands: OperandList,
    ) -> Result<Chosen, Stop> {
        call_here(
            state.alloc(),
            state,
            place,
            is_bare,
            word,
            functions,
            operands,
        )
    }

    #[tactic(auto, unfolding(crate::specs::Answers::questions))]
    fn call_member(
        &self,
        state: &mut State,
        place: Place,
        object: Operand,
        functions: &[FactId],
        operands: OperandList,
    ) -> Result<Chosen, Stop> {
        call_member_here(state.alloc(), state, place, object, functions, operands)
    }

    #[tactic(auto, unfolding(crate::specs::Answers::questions))]
    fn fallback(
        &self,
        state: &mut State,
        path: &Path,
        target: FactId,
        index: usize,
    ) -> Result<TreeId, Stop> {
        fallback_here(state, path, target, index)
    }

    #[tactic(auto, unfolding(crate::specs::Answers::questions))]
    fn size(&self, state: &mut State, of: TypeId) -> Result<Result<u64, SizeReason>, Stop> {
        size_here(state, of)
    }

    #[tactic(auto, unfolding(crate::specs::Answers::questions))]
    fn qualifier(&self, state: &State, path: &Path) -> Result<Option<ClassId>, OutOfMemory> {
        qualifier_here(state, path)
    }

    #[tactic(auto, unfolding(crate::specs::Answers::questions))]
    fn is_null(&self, state: &State, number: TreeId) -> Result<bool, OutOfMemory> {
        is_null_here(state, number)
    }

    fn built_in(
        &self,
        state: &mut State,
        operator: u8,
        operands: &OperandList,
    ) -> Result<BuiltIn, ResultFault> {
        built_in_here(state.alloc(), state, operator, operands)
    }

    fn conditional(
        &self,
        state: &mut State,
        one: Operand,
        two: Operand,
    ) -> Result<BuiltIn, ResultFault> {
        conditional_here(state.alloc(), state, one, two)
    }

    fn cast(
        &self,
        state: &mut State,
        is_single: bool,
        from: Operand,
        to: TypeId,
    ) -> Result<Option<CastSteps>, Wait> {
        cast_here(state.alloc(), state, is_single, from, to)
    }

    fn type_of_operand(&self, state: &mut State, operands: &[TreeId]) -> Result<TypeId, Stop> {
        type_of_operand(state, operands)
    }
}
