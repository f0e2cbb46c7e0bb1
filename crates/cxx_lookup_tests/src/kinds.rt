//! The types, the classes and the templates of a unit.

ghost use Rattle.std.specs.Prelude.{ℕ, ◌<◌, ◌≤◌, length, IfOk};
ghost use Rattle.cxx_lookup_tests.specs.Units.{IsUnit};

use crate::fits::{enumeration_count, is_class, is_type};
use crate::stopped::Stopped;
use crate::unit::Unit;
use cxx_model::{Base, ClassId, Cv, EnumId, Listed, Pattern, TemplateId, TreeId, TypeId};
use std::alloc::Global;

// How many types there are at least, once a type has a number.
fn raised(known: u64, number: TypeId) -> u64
    ensures { (count : ℕ) → known ≤ count → number.0 < count → result ≤ count }
{
    if number.0 >= known && number.0 < u64::MAX {
        number.0 + 1
    } else {
        known
    }
}

/// A unit with one more type of clause 3.9.1.
pub(crate) fn with_plain(unit: Unit, base: Base) -> Result<Unit, Stopped>
    requires { IsUnit unit }
    ensures { IfOk result IsUnit }
{
    let Unit {
        graph,
        mut types,
        index,
        scopes,
        known,
    } = unit;
    let number = types.plain(base)?;
    Ok(Unit {
        graph,
        types,
        index,
        scopes,
        known: raised(known, number),
    })
}

/// A unit with the type of a class.
pub(crate) fn with_class(unit: Unit, class: ClassId) -> Result<Unit, Stopped>
    requires { IsUnit unit }
    ensures { IfOk result IsUnit }
{
    if !is_class(&unit.graph, class) {
        return Err(Stopped::IllRow);
    }
    let Unit {
        graph,
        mut types,
        index,
        scopes,
        known,
    } = unit;
    let number = types.class(class)?;
    Ok(Unit {
        graph,
        types,
        index,
        scopes,
        known: raised(known, number),
    })
}

/// A unit with the type of an enumeration.
pub(crate) fn with_enumeration(unit: Unit, of: EnumId) -> Result<Unit, Stopped>
    requires { IsUnit unit }
    ensures { IfOk result IsUnit }
{
    if of.0 as usize >= enumeration_count(&unit.graph) {
        return Err(Stopped::IllRow);
    }
    let Unit {
        graph,
        mut types,
        index,
        scopes,
        known,
    } = unit;
    let number = types.enumeration(of)?;
    Ok(Unit {
        graph,
        types,
        index,
        scopes,
        known: raised(known, number),
    })
}

/// A unit with a pointer to a type.
pub(crate) fn with_pointer(unit: Unit, of: TypeId) -> Result<Unit, Stopped>
    requires { IsUnit unit }
    ensures { IfOk result IsUnit }
{
    if !is_type(&unit, of) {
        return Err(Stopped::IllRow);
    }
    let Unit {
        graph,
        mut types,
        index,
        scopes,
        known,
    } = unit;
    let number = types.pointer_to(of)?;
    Ok(Unit {
        graph,
        types,
        index,
        scopes,
        known: raised(known, number),
    })
}

/// A unit with the type of a function of one parameter.
pub(crate) fn with_function(
    unit: Unit,
    returned: TypeId,
    parameter: TypeId,
) -> Result<Unit, Stopped>
    requires { IsUnit unit }
    ensures { IfOk result IsUnit }
{
    if !is_type(&unit, returned) {
        return Err(Stopped::IllRow);
    }
    if !is_type(&unit, parameter) {
        return Err(Stopped::IllRow);
    }
    let Unit {
        graph,
        mut types,
        index,
        scopes,
        known,
    } = unit;
    let cv = Cv {
        is_const: false,
        is_volatile: false,
    };
    let number = types.function_to(returned, &[parameter], false, cv)?;
    Ok(Unit {
        graph,
        types,
        index,
        scopes,
        known: raised(known, number),
    })
}

/// A unit with one more class.
pub(crate) fn with_reserved(alloc: Global, unit: Unit) -> Result<Unit, Stopped>
    requires { IsUnit unit }
    ensures { IfOk result IsUnit }
{
    let Unit {
        mut graph,
        types,
        index,
        scopes,
        known,
    } = unit;
    let _class = graph.reserve_class(None, &Listed::new(alloc))?;
    Ok(Unit {
        graph,
        types,
        index,
        scopes,
        known,
    })
}
