//! What holds of the definitions of a reading, as contracts of functions that do nothing.
#![tactic(auto)]

ghost use Rattle.std.specs.Prelude.{◌≡◌, List};
ghost use Rattle.cxx_model.specs.Types.Trees.{CxxType};
ghost use Rattle.cxx_reading.specs.Declarators.{Layer, declared_type};
ghost use Rattle.cxx_reading_laws.specs.Derived.{HasType};

/// The type that the layers of a declarator make of that of the specifiers is the one that its name has by the sentences
/// of 8.3 to 8.3.5, and by these it has no other.
pub fn declared_types_are_read_from_the_inside_out()
    ensures derived { (layers : List Layer) (of : CxxType) → HasType layers of (declared_type layers of) }
    ensures only { (layers : List Layer) (of other : CxxType) → HasType layers of other → other ≡ declared_type layers of }
{}
