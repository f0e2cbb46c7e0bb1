//! What a reader expects of the values of constants, as contracts of functions that do nothing.
ghost use Rattle.std.specs.Prelude.{◌≡◌, ◌<◌, ◌^◌, true, false, Some, Ok, ℤ, pos, neg_ℤ, ◌*ℤ◌, unsigned_abs};
ghost use Rattle.cxx_model.specs.declared.base.Base.{Base as Fundamental};
ghost use Rattle.cxx_model.specs.Types.Integral.{holds, width};
ghost use Rattle.cxx_computed.specs.declared.operators.BinaryOperator.{BinaryOperator as Operator};
ghost use Rattle.cxx_computed.specs.declared.operators.BinaryOperator.TheVariants as binary;
ghost use Rattle.cxx_computed.specs.declared.operators.UnaryOperator.TheVariants as unary;
ghost use Rattle.cxx_computed.specs.Laws.{integer_result};
ghost use Rattle.cxx_computed.specs.Values as values;
ghost use Rattle.cxx_meaning.specs.Conversions.Arithmetic.{usual};

/// A conversion keeps a value that the type has (4.7).
pub fn conversion_keeps()
    ensures { (of : Fundamental) (value : ℤ) → holds of value ≡ true → values.converted_value of value ≡ value }
{}

/// An integral type has each value that is converted to it (4.7, 4.12).
pub fn conversion_is_held()
    ensures { (of : Fundamental) (value : ℤ) → 0 < width of → holds of (values.converted_value of value) ≡ true }
{}

/// Where the type has the value that the integers give, it is the value of the operator (5.6 to 5.10).
pub fn operators_are_of_integers()
    ensures { (operator : Operator) (of : Fundamental) (one two value : ℤ) → integer_result operator one two ≡ Some value → holds of value ≡ true → values.binary_value operator of one two ≡ Ok value }
{}

/// The same of `-` (5.3.1).
pub fn minus_is_of_integers()
    ensures { (of : Fundamental) (value : ℤ) → holds of (neg_ℤ value) ≡ true → values.unary_value unary.Minus of value ≡ Ok (neg_ℤ value) }
{}

/// A shift to the left by a count of bits is a product where the type has it (5.8).
pub fn shift_is_product()
    ensures { (of : Fundamental) (one two : ℤ) → values.is_count of two ≡ true → holds of (one *ℤ pos (2 ^ unsigned_abs two)) ≡ true → values.binary_value binary.ShiftLeft of one two ≡ Ok (one *ℤ pos (2 ^ unsigned_abs two)) }
{}

/// The usual arithmetic conversions of two values of the type to which they lead change nothing.
pub fn usual_stays()
    ensures { (one two : Fundamental) → usual (usual one two) (usual one two) ≡ usual one two }
{}
