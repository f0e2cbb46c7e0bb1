//! What a reader expects of constants, as contracts of functions that do nothing.
ghost use Rattle.std.specs.Prelude.{◌≡◌, true, None, Ok, ℤ};
ghost use Rattle.cxx_model.specs.declared.base.Base.{Base as Fundamental};
ghost use Rattle.cxx_model.specs.Facts.Declarations.{CxxGraph};
ghost use Rattle.cxx_model.specs.Types.Integral.{holds};
ghost use Rattle.cxx_meaning.specs.Conversions.Kinds.{arithmetic};
ghost use Rattle.cxx_reading.specs.Trees.{CxxTree};
ghost use Rattle.cxx_constant.specs.Constants as definition;
ghost use Rattle.cxx_constant.specs.Forms.{kind_of_expression};

/// A constant of an arithmetic type is one of the values of that type, which is integral (3.9.1).
pub fn constant_is_held()
    ensures { (graph : CxxGraph) (tree : CxxTree) (of : Fundamental) (value : ℤ) → kind_of_expression tree.label ≡ arithmetic of → definition.constant graph tree ≡ Ok value → holds of value ≡ true }
{}

/// What has a value has no part that is no constant, an operand that is not evaluated among them (5.19).
pub fn parts_are_constant()
    ensures { (graph : CxxGraph) (tree : CxxTree) (value : ℤ) → definition.constant graph tree ≡ Ok value → (definition.part_of graph tree).missing ≡ None }
{}
