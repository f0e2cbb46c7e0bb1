//! What holds of casts, as contracts of functions that do nothing.
ghost use Rattle.std.specs.Prelude.{◌≡◌, Bool, false, true, Ok, Some};
ghost use Rattle.cxx_meaning.specs.declared.steps.SequenceSteps.{SequenceSteps};
ghost use Rattle.cxx_model.specs.Facts.Declarations.{CxxGraph};
ghost use Rattle.cxx_model.specs.Types.Trees.{CxxType};
ghost use Rattle.cxx_meaning.specs.Conversions.Casts.{by_const, by_static, cast, const_cast, static_cast};
ghost use Rattle.cxx_meaning.specs.Conversions.Standard.{CxxOperand, steps_between};

/// What initializes a type by a standard conversion sequence is cast to it by `static_cast` (5.2.9).
pub fn conversions_are_static_casts()
    ensures { (graph : CxxGraph) (is_single : Bool) (from : CxxOperand) (to : CxxType) (steps : SequenceSteps) → steps_between graph from to ≡ Ok (Some steps) → static_cast graph is_single from to ≡ Ok true }
{}

/// `(T)e` is a `const_cast` wherever that is allowed, and else a `static_cast` wherever that is (5.4).
pub fn first_casts_are_taken()
    ensures one { (graph : CxxGraph) (is_single : Bool) (from : CxxOperand) (to : CxxType) → const_cast from to ≡ true → cast graph is_single from to ≡ Ok (Some by_const) }
    ensures two { (graph : CxxGraph) (is_single : Bool) (from : CxxOperand) (to : CxxType) → const_cast from to ≡ false → static_cast graph is_single from to ≡ Ok true → cast graph is_single from to ≡ Ok (Some by_static) }
{}
