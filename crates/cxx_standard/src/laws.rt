//! What a reader expects of the order of sequences, as contracts of functions that do nothing.
ghost use Rattle.std.specs.Prelude.{◌≡◌, None};
ghost use Rattle.cxx_model.specs.declared.sequence.Rank.TheVariants.{Exact};
ghost use Rattle.cxx_model.specs.Facts.Declarations.{CxxGraph};
ghost use Rattle.cxx_meaning.specs.Conversions.Order.{order_of, turned};
ghost use Rattle.cxx_meaning.specs.Conversions.Standard.{CxxStandard, rank};

/// Where one sequence is better than another, the other is worse, and where neither is, neither is the other way round.
pub fn order_turns()
    ensures { (graph : CxxGraph) (one two : CxxStandard) → order_of graph two one ≡ turned (order_of graph one two) }
{}

/// A sequence without a promotion or conversion is exact (13.3.3.1.1, table 9).
pub fn identity_is_exact()
    ensures { (one : CxxStandard) → one.second ≡ None → rank one ≡ Exact }
{}
