//! The types to which two operands are brought (5.9, 5.10, 5.16).
ghost use Rattle.std.specs.Prelude.{◌≡◌, IsFalse, IsTrue, Ok, Some};
ghost use Rattle.cxx_model.specs.declared.base.Base.{Base as Fundamental};
ghost use Rattle.cxx_model.specs.Facts.Declarations.{CxxGraph};
ghost use Rattle.cxx_model.specs.Types.Trees.{CxxType, IsNormal, adjusted};
ghost use Rattle.cxx_meaning.specs.declared.operator.BinaryFamily.TheVariants as family;
ghost use Rattle.cxx_meaning.specs.Conversions.BuiltIn.{CxxBuiltIn, binary_by, operand_kind};
ghost use Rattle.cxx_meaning.specs.Conversions.Conditional.{conditional};
ghost use Rattle.cxx_meaning.specs.Conversions.Kinds.{arithmetic, no_value, pointing};
ghost use Rattle.cxx_meaning.specs.Conversions.Pointers.{common_pointer};
ghost use Rattle.cxx_meaning.specs.Conversions.Standard.{CxxOperand, is_null};
ghost use Rattle.cxx_meaning_laws.specs.Converting.{AreConverted, HasCommonType};

/// Where two pointers have a common type (5.9), a standard conversion sequence leads from each to it: by a qualification
/// (4.4), to `void`, or to a base that the definition of the common type found (4.10). The types are in the one form,
/// in which no cv word stands on a function (8.3.5).
pub fn common_pointers_convert()
    ensures { (graph : CxxGraph) (one two : CxxOperand) (s t common : CxxType) → IsNormal one.of → IsNormal two.of → operand_kind one ≡ pointing s → operand_kind two ≡ pointing t → common_pointer graph s t ≡ Ok (Some common) → AreConverted graph one two common }
{}

/// A pointer and a null pointer constant are both converted to the pointer's type (4.10, 5.9).
pub fn null_pointers_convert()
    ensures { (graph : CxxGraph) (one two : CxxOperand) (s : CxxType) (of : Fundamental) → operand_kind one ≡ pointing s → operand_kind two ≡ arithmetic of → IsTrue (is_null two.constant of) → AreConverted graph one two (adjusted one.of) }
{}

/// Whatever is compared, pointers, null pointer constants or numbers (5.9, 5.10), both operands are of one type then, to
/// which a standard conversion sequence leads from each.
pub fn compared_operands_convert()
    ensures { (graph : CxxGraph) (one two : CxxOperand) (whole : CxxBuiltIn) → IsNormal one.of → IsNormal two.of → binary_by graph family.Compare one two ≡ Ok (Some whole) → HasCommonType graph one two whole }
{}

/// Where the second and the third operand of `?:` become a value of one type (5.16), a standard conversion sequence leads
/// from each to it. Operands of type `void` are left out: nothing is converted to `void`.
pub fn arms_convert()
    ensures { (graph : CxxGraph) (one two : CxxOperand) (whole : CxxBuiltIn) → IsNormal one.of → IsNormal two.of → (operand_kind one ≡ no_value → ⊥) → conditional graph one two ≡ Ok (Some whole) → IsFalse whole.lvalue → HasCommonType graph one two whole }
{}
