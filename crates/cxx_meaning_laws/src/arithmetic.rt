//! The usual arithmetic conversions (clause 5).
ghost use Rattle.std.specs.Prelude.{◌≡◌};
ghost use Rattle.cxx_model.specs.declared.base.Base.{Base as Fundamental};
ghost use Rattle.cxx_meaning.specs.Conversions.Arithmetic.{usual};

/// The usual arithmetic conversions of three operands lead to one type, whichever two are brought together first.
pub fn usual_groups()
    ensures { (one two three : Fundamental) → usual (usual one two) three ≡ usual one (usual two three) }
{}
