//! What lookups find, as texts.

use cxx_model::{Associated, FactId, Found, Hit, MemberFound};
use std::alloc::{AllocError, Global};

fn push_number(alloc: Global, text: &mut String, number: u32) -> Result<(), AllocError> {
    let digits = format!(in alloc; "{number}")?;
    text.push_str(digits.as_str())
}

pub(crate) fn push_facts(
    alloc: Global,
    text: &mut String,
    facts: &[FactId],
) -> Result<(), AllocError> {
    for (i, fact) in facts.iter().enumerate() {
        if i > 0 {
            text.push(',')?;
        }
        push_number(alloc, text, fact.0)?;
    }
    Ok(())
}

fn push_numbers(
    alloc: Global,
    text: &mut String,
    between: char,
    numbers: &[u32],
) -> Result<(), AllocError> {
    for (i, number) in numbers.iter().enumerate() {
        if i > 0 {
            text.push(between)?;
        }
        push_number(alloc, text, *number)?;
    }
    Ok(())
}

fn push_hit(alloc: Global, text: &mut String, hit: &Hit) -> Result<(), AllocError> {
    push_number(alloc, text, hit.fact.0)?;
    text.push('@')?;
    push_numbers(alloc, text, '.', hit.path.as_slice())
}

/// `-` where there is nothing, `F,F@P.P` for facts and the path to them, `F@P/F@P` for two that do not go together.
pub(crate) fn push_member(
    alloc: Global,
    text: &mut String,
    found: &MemberFound,
) -> Result<(), AllocError> {
    match found {
        MemberFound::Empty => text.push('-'),
        MemberFound::Set(facts, path) => {
            push_facts(alloc, text, facts.as_slice())?;
            text.push('@')?;
            push_numbers(alloc, text, '.', path.as_slice())
        }
        MemberFound::Ambiguous(one, two) => {
            push_hit(alloc, text, one)?;
            text.push('/')?;
            push_hit(alloc, text, two)
        }
    }
}

/// `-` where there is nothing, `F,F` for facts, `F/F` for two that do not go together, and `cC:` before what is found in a
/// class.
pub(crate) fn push_found(
    alloc: Global,
    text: &mut String,
    found: &Found,
) -> Result<(), AllocError> {
    match found {
        Found::Empty => text.push('-'),
        Found::Set(facts) => push_facts(alloc, text, facts.as_slice()),
        Found::Member(class, of) => {
            text.push('c')?;
            push_number(alloc, text, class.0)?;
            text.push(':')?;
            push_member(alloc, text, of)
        }
        Found::Ambiguous(one, two) => {
            push_number(alloc, text, one.0)?;
            text.push('/')?;
            push_number(alloc, text, two.0)
        }
    }
}

/// `!C` for a class that has to be complete first.
pub(crate) fn push_needed(alloc: Global, text: &mut String, class: u32) -> Result<(), AllocError> {
    text.push('!')?;
    push_number(alloc, text, class)
}

/// The classes, `;` and the namespaces.
pub(crate) fn push_sets(
    alloc: Global,
    text: &mut String,
    sets: &Associated,
) -> Result<(), AllocError> {
    push_numbers(alloc, text, ',', sets.classes.as_slice())?;
    text.push(';')?;
    push_numbers(alloc, text, ',', sets.spaces.as_slice())
}
