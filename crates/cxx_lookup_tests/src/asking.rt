//! Lookups in a unit, and whether they find what a row says.

ghost use Rattle.std.specs.Prelude.{◌≡◌, ◌<◌, length, IfOk};
ghost use Rattle.cxx_lookup_tests.specs.Units.{IsUnit};

use crate::answers::{push_facts, push_found, push_member, push_needed, push_sets};
use crate::fits::is_type;
use crate::rows::{Item, item_of, name};
use crate::stopped::Stopped;
use crate::unit::Unit;
use cxx_adl::{adl_set, associated};
use cxx_model::{ClassId, FactId, Found, Listed, MemberFound, ScopeId, Steps, TypeId, Wait};
use cxx_scopes::Wanted;
use std::alloc::Global;
use std::sync::ledger::{Blank, Ledger};

fn wanted(number: u32) -> Wanted {
    match number {
        0 => Wanted::Any,
        1 => Wanted::Types,
        2 => Wanted::Spaces,
        _ => Wanted::Holders,
    }
}

// The cut with a number, and that behind all facts for 0.
pub(crate) fn cut(unit: &Unit, number: u32) -> FactId {
    if number == 0 {
        FactId(unit.graph.length())
    } else {
        FactId(number)
    }
}

pub(crate) fn found(alloc: Global, answer: Result<Found, Wait>) -> Result<String, Stopped> {
    let mut text = String::new(alloc);
    match answer {
        Ok(found) => push_found(alloc, &mut text, &found)?,
        Err(Wait::Needs(class)) => push_needed(alloc, &mut text, class.0)?,
        Err(Wait::OutOfMemory) => return Err(Stopped::OutOfMemory),
    }
    Ok(text)
}

pub(crate) fn member(alloc: Global, answer: Result<MemberFound, Wait>) -> Result<String, Stopped> {
    let mut text = String::new(alloc);
    match answer {
        Ok(found) => push_member(alloc, &mut text, &found)?,
        Err(Wait::Needs(class)) => push_needed(alloc, &mut text, class.0)?,
        Err(Wait::OutOfMemory) => return Err(Stopped::OutOfMemory),
    }
    Ok(text)
}

// The associated classes and namespaces of a type (3.4.2); with a name, the functions that are found in them.
fn by_argument<L: Ledger>(
    alloc: Global,
    unit: &Unit,
    item: Item,
    steps: &mut Steps<L>,
) -> Result<String, Stopped>
    requires { IsUnit unit.now }
{
    if !is_type(unit, TypeId(u64::from(item.first))) {
        return Err(Stopped::IllRow);
    }
    let mut of = Listed::new(alloc);
    of.push(TypeId(u64::from(item.first)))?;
    let mut text = String::new(alloc);
    let sets = match associated(alloc, &unit.graph, &unit.types, &of) {
        Ok(sets) => sets,
        Err(Wait::Needs(class)) => {
            push_needed(alloc, &mut text, class.0)?;
            return Ok(text);
        }
        Err(Wait::OutOfMemory) => return Err(Stopped::OutOfMemory),
    };
    if item.kind == b'a' {
        push_sets(alloc, &mut text, &sets)?;
        return Ok(text);
    }
    let name = name(alloc, item.second)?;
    let cut = cut(unit, item.third);
    match adl_set(alloc, &unit.graph, &unit.types, &sets, &name, cut, steps) {
        Ok(facts) => push_facts(alloc, &mut text, facts.as_slice())?,
        Err(_) => return Err(Stopped::OutOfMemory),
    }
    Ok(text)
}

// What a lookup finds, as a text: `o` unqualified, `q` behind `::`, `b` by a using-declaration, `m` in a class, `a` and `l`
// by the type of an argument.
fn answer<L: Ledger>(
    alloc: Global,
    unit: &Unit,
    item: Item,
    steps: &mut Steps<L>,
) -> Result<String, Stopped>
    requires { IsUnit unit.now }
{
    let name = name(alloc, item.second)?;
    let cut = cut(unit, item.fourth);
    let wanted = wanted(item.third);
    let scope = ScopeId(item.first);
    let Unit {
        graph,
        types,
        index,
        ..
    } = unit;
    match item.kind {
        b'o' => found(
            alloc,
            index.ordinary_for(alloc, graph, types, wanted, scope, &name, cut, steps),
        ),
        b'q' => found(
            alloc,
            index.qualified_for(alloc, graph, types, wanted, scope, &name, cut, steps),
        ),
        b'b' => found(
            alloc,
            index.brought(alloc, graph, types, scope, &name, cut, steps),
        ),
        b'm' => member(
            alloc,
            index.member_for(
                alloc,
                graph,
                types,
                wanted,
                ClassId(item.first),
                &name,
                steps,
            ),
        ),
        b'a' | b'l' => by_argument(alloc, unit, item, steps),
        _ => Err(Stopped::IllRow),
    }
}

// What stands before the first `=`, and behind it.
fn halves(bytes: &[u8]) -> (&[u8], &[u8]) {
    for (i, byte) in bytes.iter().enumerate() {
        if *byte == b'=' {
            return (&bytes[..i], &bytes[i + 1..]);
        }
    }
    (bytes, &[])
}

/// Whether a lookup finds what is written behind `=`; else what it finds is added to a text.
pub(crate) fn check<L: Ledger>(
    alloc: Global,
    unit: &Unit,
    query: &[u8],
    report: &mut String,
    blank: Blank,
) -> Result<bool, Stopped>
    requires unit { IsUnit unit.now }
    requires name { blank.name ≡ L.name }
    requires parts { blank.parts ≡ L.parts }
    requires some { 0 < blank.parts }
{
    let mut steps = Steps::<L>::new(blank);
    let (asked, expected) = halves(query);
    let item = item_of(asked);
    let text = answer(alloc, unit, item, &mut steps)?;
    if text.as_bytes() == expected {
        return Ok(true);
    }
    report.push(' ')?;
    report.push_str(text.as_str())?;
    Ok(false)
}
