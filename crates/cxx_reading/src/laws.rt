//! What a reader expects of the definitions, as contracts of functions that do nothing.
ghost use Rattle.std.specs.Prelude.{◌≡◌, List, None};
ghost use Rattle.cxx_model.specs.Types.Trees.{CxxType};
ghost use Rattle.cxx_reading.specs.Declarators.{HaveParts, Layer, declared_type, forbidden, refused_in};

/// A declared type has a part that there is not (8.3.1 to 8.3.5) exactly where a layer of its declarator is refused, and
/// the first such part is that of this layer: the type of the specifiers and the parameters were asked before.
pub fn forbidden_types_are_refused()
    ensures { (layers : List Layer) (of : CxxType) → forbidden of ≡ None → HaveParts layers → forbidden (declared_type layers of) ≡ refused_in layers of }
{}
