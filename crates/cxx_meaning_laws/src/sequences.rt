//! The identity (13.3.3.1), and the first criterion by which two standard conversion sequences are told apart (13.3.3.2).
ghost use Rattle.std.specs.Prelude.{◌≡◌, ◌↔◌};
ghost use Rattle.cxx_model.specs.declared.sequence.Order.TheVariants.{Better};
ghost use Rattle.cxx_model.specs.Facts.Declarations.{CxxGraph};
ghost use Rattle.cxx_model.specs.Types.Trees.{adjusted};
ghost use Rattle.cxx_meaning.specs.Conversions.BuiltIn.{operand_kind};
ghost use Rattle.cxx_meaning.specs.Conversions.Kinds.{no_value, other};
ghost use Rattle.cxx_meaning.specs.Conversions.Order.{is_proper_part, order_of, told_by};
ghost use Rattle.cxx_meaning.specs.Conversions.Standard.{CxxOperand, CxxStandard, rank};
ghost use Rattle.cxx_meaning_laws.specs.Converting.{IsUnchanged};
ghost use Rattle.cxx_meaning_laws.specs.Ranks.{worst_rank};
ghost use Rattle.cxx_meaning_laws.specs.Subsequences.{IsProperSubsequence, steps_in};

/// The first criterion says that one sequence is better exactly where it is a proper subsequence of the other.
pub fn first_criterion_is_proper_subsequence()
    ensures { (one two : CxxStandard) → (told_by is_proper_part one two ≡ Better) ↔ IsProperSubsequence one two }
{}

/// A proper subsequence is the better sequence, whatever the later criteria say.
pub fn proper_subsequence_is_better()
    ensures { (graph : CxxGraph) (one two : CxxStandard) → IsProperSubsequence one two → order_of graph one two ≡ Better }
{}

/// A proper subsequence of a proper subsequence is one.
pub fn proper_subsequences_chain()
    ensures { (one two three : CxxStandard) → IsProperSubsequence one two → IsProperSubsequence two three → IsProperSubsequence one three }
{}

/// An expression that has a value is converted to the type of this value by the identity (13.3.3.1): an array to a pointer
/// to its element, and a function to a pointer to it, by an lvalue transformation alone.
pub fn values_keep_their_type()
    ensures { (graph : CxxGraph) (from : CxxOperand) → (operand_kind from ≡ no_value → ⊥) → (operand_kind from ≡ other → ⊥) → IsUnchanged graph from (adjusted from.of) }
{}

/// The rank of a sequence is that of its worst step (13.3.3.1.1, table 9), and exact where it has none.
pub fn rank_is_that_of_the_worst_step()
    ensures { (one : CxxStandard) → rank one ≡ worst_rank (steps_in one) }
{}
