//! What a reader expects of built-in operators, as contracts of functions that do nothing.
ghost use Rattle.std.specs.Prelude.{◌≡◌};
ghost use Rattle.cxx_model.specs.declared.base.Base.{Base as Fundamental};
ghost use Rattle.cxx_meaning.specs.Conversions.Arithmetic.{usual};

/// The usual arithmetic conversions do not ask which operand is the left one.
pub fn usual_turns()
    ensures { (one two : Fundamental) → usual two one ≡ usual one two }
{}
