ghost use Rattle.std.specs.Prelude.{ℕ, ◌≡◌, ◌<◌, length, IfOk};
ghost use Rattle.cxx_meaning.specs.Conversions.BuiltIn.{built_in_result};
ghost use Rattle.cxx_meaning.specs.Conversions.Conditional.{conditional as conditional_of};
ghost use Rattle.cxx_standard.specs.Views.{operand_at};
ghost use Rattle.cxx_tree.specs.Answered.{AnyKnown, IsAnswered, itself};
ghost use Rattle.cxx_expr.specs.Making.{AreTreesHeld, GrowsType, IsTreeKnown, trees_held};
ghost use Rattle.cxx_expr.specs.SizesOf.{type_of_operand as type_of_operand_by};
ghost use Rattle.cxx_model.specs.Facts.Here.{cut_of};
ghost use Rattle.cxx_reading.specs.Trees.{in_turn};
ghost use Rattle.cxx_tree.specs.Arena.{path_at};
ghost use Rattle.cxx_tree.specs.Held.{meaning, tree, trees, type_of};
ghost use Rattle.cxx_meaning.specs.Conversions.Casts.{cast as cast_of};
ghost use Rattle.cxx_expr.specs.Built.{MakesBuilt};
ghost use Rattle.cxx_expr.specs.Casting.{MakesCast};
ghost use Rattle.cxx_expr.specs.Questions as definition;
ghost use Rattle.cxx_expr.specs.Views.{AreFactsKnown, AreOperandsBelow, IsChosen, IsClassKnown, chosen_of, class_of_number, class_of_option, member_question_of, numbered, operands_in, question_of};
ghost use Rattle.cxx_model.specs.Facts.Graph.{IsClassNumberInRange};

use cxx_builtin::{BuiltIn, ResultFault};
use cxx_casts::CastSteps;
use cxx_meaning::SizeReason;
use cxx_model::{
    ClassId, FactId, FactList, Operand, OperandList, OutOfMemory, Path, Place, Stop, TreeId,
    TypeId, TypeIdList, Wait,
};
use cxx_tree::State;

/// The function that a call means (13.3).
#[derive(Drop)]
pub struct Chosen {
    /// Its first declaration.
    pub target: FactId,
    pub parameters: TypeIdList,
    pub result: TypeId,
    pub ellipsis: bool,
    /// The number of the record of the call.
    pub number: u32,
}

/// What is asked of the user while it is found what an expression means. `asks` is the definition that the answers follow.
pub trait Questions {
    ghost asks: { Self → definition.Questions };

    ghost is_ready: { Self → Type 0 };

    /// All declarations that a name means (3.4).
    fn name(&self, state: &mut State, path: &Path) -> Result<FactList, Stop>
        requires { is_ready self.now }
        ensures { IsAnswered numbered AreFactsKnown state.old state.new result ((asks self.now).name (path_at path.now) (meaning state.old)) };

    /// The class in which a name is looked up behind an object of a class (3.4.5).
    fn naming(&self, state: &mut State, class: ClassId, path: &Path) -> Result<ClassId, Stop>
        requires ready { is_ready self.now }
        requires class { class.0 < length (state.old).graph.classes }
        ensures { IsAnswered class_of_number IsClassKnown state.old state.new result ((asks self.now).naming class.0 (path_at path.now) (meaning state.old)) };

    /// All declarations that a name means as a member of a class (10.2).
    fn member(&self, state: &mut State, class: ClassId, path: &Path) -> Result<FactList, Stop>
        requires { is_ready self.now }
        ensures { IsAnswered numbered AreFactsKnown state.old state.new result ((asks self.now).member class.0 (path_at path.now) (meaning state.old)) };

    /// A name means the entity with this first declaration (3.4).
    fn bound(&self, state: &mut State, place: Place, target: FactId) -> Result<(), Stop>
        requires { is_ready self.now }
        ensures { IsAnswered itself AnyKnown state.old state.new result ((asks self.now).bound place target.0 (meaning state.old)) };

    /// Which function a call means, given the word that is called, and whether it is bare: without brackets and qualifiers
    /// (13.3).
    fn call(
        &self,
        state: &mut State,
        place: Place,
        is_bare: bool,
        word: &[u8],
        functions: &[FactId],
        operands: OperandList,
    ) -> Result<Chosen, Stop>
        requires ready { is_ready self.now }
        requires functions { AreFactsKnown state.old functions.now }
        requires operands { AreOperandsBelow (length (state.old).types) operands }
        ensures { IsAnswered chosen_of IsChosen state.old state.new result ((asks self.now).call (question_of state.old place is_bare word.now functions.now operands) (meaning state.old)) };

    /// Which function a call of a member means, given its object as an lvalue (13.3.1.1.1).
    fn call_member(
        &self,
        state: &mut State,
        place: Place,
        object: Operand,
        functions: &[FactId],
        operands: OperandList,
    ) -> Result<Chosen, Stop>
        requires ready { is_ready self.now }
        requires object { object.of.0 < length (state.old).types }
        requires functions { AreFactsKnown state.old functions.now }
        requires operands { AreOperandsBelow (length (state.old).types) operands }
        ensures { IsAnswered chosen_of IsChosen state.old state.new result ((asks self.now).call (member_question_of state.old place object functions.now operands) (meaning state.old)) };

    /// The default argument of a parameter, by the name that is called and the first declaration of its function, as it is
    /// converted (8.3.6).
    fn fallback(
        &self,
        state: &mut State,
        path: &Path,
        target: FactId,
        index: usize,
    ) -> Result<TreeId, Stop>
        requires { is_ready self.now }
        ensures { IsAnswered tree IsTreeKnown state.old state.new result ((asks self.now).fallback (path_at path.now) target.0 index (meaning state.old)) };

    /// How many bytes objects of a type take (5.3.3).
    fn size(&self, state: &mut State, of: TypeId) -> Result<Result<u64, SizeReason>, Stop>
        requires ready { is_ready self.now }
        requires known { of.0 < length (state.old).types }
        ensures { IsAnswered itself AnyKnown state.old state.new result ((asks self.now).size (type_of state.old of) (meaning state.old)) };

    /// The class that the qualifiers of a name mean where it stands, if they mean one (3.4.3.1).
    fn qualifier(&self, state: &State, path: &Path) -> Result<Option<ClassId>, OutOfMemory>
        requires ready { is_ready self.now }
        ensures is { IfOk result (λ class. class_of_option class ≡ (asks self.now).qualifier (path_at path.now) (meaning state.now)) }
        ensures there { IfOk result (IsClassNumberInRange (state.now).graph) };

    /// Whether an expression is an integral constant with the value zero (5.19).
    fn is_null(&self, state: &State, number: TreeId) -> Result<bool, OutOfMemory>
        requires ready { is_ready self.now }
        requires known { number.0 < length (trees state.now) }
        ensures { IfOk result (λ known. known ≡ (asks self.now).is_null (tree state.now number) (meaning state.now)) };

    /// What an operator does with operands of no class (clause 5).
    fn built_in(
        &self,
        state: &mut State,
        operator: u8,
        operands: &OperandList,
    ) -> Result<BuiltIn, ResultFault>
        requires { AreOperandsBelow (length (state.old).types) operands.now }
        ensures { MakesBuilt state.old state.new result (built_in_result (meaning state.old).graph operator (operands_in (state.old).types operands.now)) };

    /// What the second and the third operand of the conditional operator become (5.16).
    fn conditional(
        &self,
        state: &mut State,
        one: Operand,
        two: Operand,
    ) -> Result<BuiltIn, ResultFault>
        requires one_known { one.of.0 < length (state.old).types }
        requires two_known { two.of.0 < length (state.old).types }
        ensures { MakesBuilt state.old state.new result (conditional_of (meaning state.old).graph (operand_at (state.old).types one) (operand_at (state.old).types two)) };

    /// For which named casts `(T)e` stands, given whether a cast from a base leads to a class that has it once (5.4).
    fn cast(
        &self,
        state: &mut State,
        is_single: bool,
        from: Operand,
        to: TypeId,
    ) -> Result<Option<CastSteps>, Wait>
        requires from_known { from.of.0 < length (state.old).types }
        requires to_known { to.0 < length (state.old).types }
        ensures { MakesCast state.old state.new result (cast_of (meaning state.old).graph is_single (operand_at (state.old).types from) (type_of state.old to)) };

    /// The type of the first of some operands, with a bound that a later declaration of it gives (5.3.3, 8.3.4).
    fn type_of_operand(&self, state: &mut State, operands: &[TreeId]) -> Result<TypeId, Stop>
        requires { AreTreesHeld state.old operands.now }
        ensures { GrowsType state.old state.new result (type_of_operand_by (meaning state.old).graph.facts (cut_of (meaning state.old).graph.facts (meaning state.old).here) (in_turn (trees_held state.old operands.now))) };
}
