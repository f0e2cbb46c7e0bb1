//! What a reader expects of expressions in the plain form, as contracts of functions that do nothing.
ghost use Rattle.std.specs.Prelude.{ℕ, List};
ghost use Rattle.cxx_reading.specs.Trees.{CxxTree};
ghost use Rattle.cxx_reading.specs.Words.{Tags};
ghost use Rattle.cxx_phrase_text.specs.Apart.{StandsApart};
ghost use Rattle.cxx_phrase_text.specs.Phrases.{operand, phrase_of};

/// An operand begins with no prefix operator and ends with no postfix operator. So what stands before it and behind it
/// makes no longer token with it (2.4): `-(-x)`, and not `--x`.
pub fn operands_stand_apart()
    ensures { (tags : Tags) (name : ℕ → List ℕ) (tree : CxxTree) → StandsApart (operand (phrase_of tags name tree)) }
{}
