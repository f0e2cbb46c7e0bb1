//! The types of the members that a class declares by itself (12.1, 12.8).
ghost use Rattle.std.specs.Prelude.{◌≡◌};
ghost use Rattle.cxx_model.specs.Types.Trees.{class_type, with_cv};
ghost use Rattle.cxx_implicit.specs.Members as definition;
ghost use Rattle.cxx_types.specs.Makes.{Makes};

use crate::deciding::only_const;
use cxx_model::{Base, ClassId, Cv, OutOfMemory, TypeId};
use cxx_types::TypeTable;

// A class with cv words.
fn class_with(types: &mut TypeTable, class: ClassId, cv: Cv) -> Result<TypeId, OutOfMemory>
    ensures { Makes types.old types.new result (with_cv cv (class_type class.0)) }
{
    let plain = types.class(class)?;
    types.with_cv(plain, cv)
}

// A reference to a class with cv words (8.3.2).
fn reference_to_class(types: &mut TypeTable, class: ClassId, cv: Cv) -> Result<TypeId, OutOfMemory>
    ensures { Makes types.old types.new result (definition.reference_to_class class.0 cv) }
{
    let of = class_with(types, class, cv)?;
    types.reference_to(of)
}

/// The type of a default constructor (12.1).
pub(crate) fn default_constructor_type(types: &mut TypeTable) -> Result<TypeId, OutOfMemory>
    ensures { Makes types.old types.new result definition.default_constructor_type }
{
    let nothing = types.plain(Base::Void)?;
    types.function_to(nothing, &[], false, only_const(false))
}

/// The type of a copy constructor (12.8) whose parameter refers to the class with cv words.
pub(crate) fn copy_constructor_type(
    types: &mut TypeTable,
    class: ClassId,
    cv: Cv,
) -> Result<TypeId, OutOfMemory>
    ensures { Makes types.old types.new result (definition.copy_constructor_type class.0 cv) }
{
    let parameter = reference_to_class(types, class, cv)?;
    let nothing = types.plain(Base::Void)?;
    types.function_to(nothing, &[parameter], false, only_const(false))
}

/// The type of a copy assignment operator (12.8) whose parameter refers to the class with cv words.
pub(crate) fn copy_assignment_type(
    types: &mut TypeTable,
    class: ClassId,
    cv: Cv,
) -> Result<TypeId, OutOfMemory>
    ensures { Makes types.old types.new result (definition.copy_assignment_type class.0 cv) }
{
    let parameter = reference_to_class(types, class, cv)?;
    let returned = reference_to_class(types, class, only_const(false))?;
    types.function_to(returned, &[parameter], false, only_const(false))
}
