//! Parameters of candidates, whose types are not made yet.
ghost use Rattle.std.specs.Prelude.{◌≡◌, ◌++◌, ◌∷◌, [], map, OnOk, List};
ghost use Rattle.std.specs.List.{flat_map};
ghost use Rattle.cxx_candidates.specs.Rows as rows;

use cxx_model::{Base, EnumId, OutOfMemory, TypeId};
use cxx_types::TypeTable;

/// The type of a parameter, by types that are there.
#[derive(Clone, Copy)]
pub(crate) enum Slot {
    Plain(Base),
    /// A pointer to that type.
    PointerTo(TypeId),
    Enumeration(EnumId),
}

/// How a parameter has the type.
#[derive(Clone, Copy)]
pub(crate) enum Form {
    Value,
    /// 8.3.2
    Reference,
    /// A reference to the volatile type.
    VolatileReference,
}

/// The parameters of a candidate.
#[derive(Clone, Copy)]
pub(crate) struct Shape {
    pub form: Form,
    pub first: Slot,
    pub second: Option<Slot>,
}

// ---- lists of shapes

pub(crate) fn push_alone(list: &mut Vec<Shape>, slots: &[Slot]) -> Result<(), OutOfMemory>
    ensures { OnOk result (list.new.items ≡ list.old.items ++ map rows.alone slots.now) }
{
    for slot in slots {
        list.push(Shape {
            form: Form::Value,
            first: *slot,
            second: None,
        })?;
    }
    Ok(())
}

fn push_beside(list: &mut Vec<Shape>, first: Slot, others: &[Slot]) -> Result<(), OutOfMemory>
    ensures { OnOk result (list.new.items ≡ list.old.items ++ rows.beside others.now first) }
{
    for other in others {
        list.push(Shape {
            form: Form::Value,
            first,
            second: Some(*other),
        })?;
    }
    Ok(())
}

pub(crate) fn push_both(
    list: &mut Vec<Shape>,
    firsts: &[Slot],
    others: &[Slot],
) -> Result<(), OutOfMemory>
    ensures { OnOk result (list.new.items ≡ list.old.items ++ flat_map (rows.beside others.now) firsts.now) }
{
    for first in firsts {
        push_beside(list, *first, others)?;
    }
    Ok(())
}

pub(crate) fn push_twice(list: &mut Vec<Shape>, slots: &[Slot]) -> Result<(), OutOfMemory>
    ensures { OnOk result (list.new.items ≡ list.old.items ++ map rows.twice slots.now) }
{
    for slot in slots {
        list.push(Shape {
            form: Form::Value,
            first: *slot,
            second: Some(*slot),
        })?;
    }
    Ok(())
}

fn push_changing(
    list: &mut Vec<Shape>,
    first: Slot,
    second: Option<Slot>,
) -> Result<(), OutOfMemory>
    ensures { OnOk result (list.new.items ≡ list.old.items ++ rows.changing second first) }
{
    list.push(Shape {
        form: Form::Reference,
        first,
        second,
    })?;
    list.push(Shape {
        form: Form::VolatileReference,
        first,
        second,
    })?;
    Ok(())
}

pub(crate) fn push_changing_alone(
    list: &mut Vec<Shape>,
    second: Option<Slot>,
    firsts: &[Slot],
) -> Result<(), OutOfMemory>
    ensures { OnOk result (list.new.items ≡ list.old.items ++ flat_map (rows.changing second) firsts.now) }
{
    for first in firsts {
        push_changing(list, *first, second)?;
    }
    Ok(())
}

fn push_changing_beside(
    list: &mut Vec<Shape>,
    first: Slot,
    others: &[Slot],
) -> Result<(), OutOfMemory>
    ensures { OnOk result (list.new.items ≡ list.old.items ++ rows.changing_beside others.now first) }
{
    for other in others {
        push_changing(list, first, Some(*other))?;
    }
    Ok(())
}

pub(crate) fn push_changing_both(
    list: &mut Vec<Shape>,
    firsts: &[Slot],
    others: &[Slot],
) -> Result<(), OutOfMemory>
    ensures { OnOk result (list.new.items ≡ list.old.items ++ flat_map (rows.changing_beside others.now) firsts.now) }
{
    for first in firsts {
        push_changing_beside(list, *first, others)?;
    }
    Ok(())
}

pub(crate) fn push_changing_same(list: &mut Vec<Shape>, slots: &[Slot]) -> Result<(), OutOfMemory>
    ensures { OnOk result (list.new.items ≡ list.old.items ++ flat_map rows.changing_same slots.now) }
{
    for slot in slots {
        push_changing(list, *slot, Some(*slot))?;
    }
    Ok(())
}
