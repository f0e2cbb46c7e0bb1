//! `cxx_report`: reports with every kind of line.

use crate::places::at;
use cxx_model::{
    Evidence, Fault, FaultText, Link, Listed, Place, Reason, Shown, SubstitutionText, Word,
};
use cxx_report::report;
use std::alloc::{AllocError, Global};
use std::test::Fail;

/// Whether the report of a fault is a text.
fn reports(
    alloc: Global,
    place: Place,
    text: FaultText,
    evidence: Vec<Evidence>,
    expected: &str,
) -> Result<bool, AllocError> {
    let fault = Fault {
        place,
        text,
        evidence: Listed::from_vec(evidence),
    };
    let told = report(alloc, &fault)?;
    Ok(told.as_slice() == expected.as_bytes())
}

fn word(alloc: Global, bytes: &[u8]) -> Result<Word, AllocError> {
    Listed::from_slice(alloc, bytes)
}

// A member, by the positions of the bases on its way.
fn by_bases(
    alloc: Global,
    member: Option<Place>,
    positions: &[u32],
) -> Result<Evidence, AllocError> {
    Ok(Evidence::ByBases(member, Listed::from_slice(alloc, positions)?))
}

fn one_line(alloc: Global, evidence: Evidence) -> Result<Vec<Evidence>, AllocError> {
    let mut lines = Vec::new(alloc);
    lines.push(evidence)?;
    Ok(lines)
}

fn two_lines(
    alloc: Global,
    first: Evidence,
    second: Evidence,
) -> Result<Vec<Evidence>, AllocError> {
    let mut lines = one_line(alloc, first)?;
    lines.push(second)?;
    Ok(lines)
}

const ONE: Shown = Shown::Declared(1, Place { line: 1, column: 5 });

const TWO: Shown = Shown::Declared(
    2,
    Place {
        line: 1,
        column: 18,
    },
);

#[test]
fn ties_are_shown(rt: HostRuntime) -> Result<(), Fail> {
    let lines = two_lines(
        rt.alloc(),
        Evidence::DoesNotBeat(ONE, TWO),
        Evidence::DoesNotBeat(TWO, ONE),
    )?;
    let expected =
        "1:37: ambiguous call\n  candidate 1 at 1:5 does not beat candidate 2 at 1:18\n  candidate 2 at 1:18 does not beat candidate 1 at 1:5\n";
    assert!(rt;
        reports(
            rt.alloc(),
            at(1, 37),
            FaultText::AmbiguousCall,
            lines,
            expected
        )?
    );
    Ok(())
}

#[test]
fn rows_are_shown(rt: HostRuntime) -> Result<(), Fail> {
    let lines = one_line(rt.alloc(), Evidence::RowDoesNotBeat(1, 2))?;
    let expected = "2:1: ambiguous call\n  row 1 does not beat row 2\n";
    assert!(rt;
        reports(
            rt.alloc(),
            at(2, 1),
            FaultText::AmbiguousCall,
            lines,
            expected
        )?
    );
    Ok(())
}

#[test]
fn uses_are_shown(rt: HostRuntime) -> Result<(), Fail> {
    let lines = one_line(rt.alloc(), Evidence::Uses(Shown::BuiltIn(3), 2))?;
    let expected = "2:1: ambiguous conversion\n  built-in candidate 3 uses it for argument 2\n";
    assert!(rt;
        reports(
            rt.alloc(),
            at(2, 1),
            FaultText::AmbiguousConversion,
            lines,
            expected
        )?
    );
    Ok(())
}

#[test]
fn declarations_are_shown(rt: HostRuntime) -> Result<(), Fail> {
    assert!(rt; shows_a_declaration(rt.alloc())?);
    Ok(())
}

fn shows_a_declaration(alloc: Global) -> Result<bool, AllocError> {
    let lines = one_line(alloc, Evidence::Found(at(1, 24)))?;
    let text = FaultText::ConflictingDeclaration(word(alloc, b"s")?);
    let expected = "2:21: conflicting declaration of s\n  found at 1:24\n";
    reports(alloc, at(2, 21), text, lines, expected)
}

#[test]
fn members_are_shown_by_their_bases(rt: HostRuntime) -> Result<(), Fail> {
    assert!(rt; shows_members(rt.alloc())?);
    assert!(rt; shows_bases(rt.alloc())?);
    Ok(())
}

fn shows_members(alloc: Global) -> Result<bool, AllocError> {
    let member = Some(at(1, 16));
    let first = by_bases(alloc, member, &[1, 1])?;
    let second = by_bases(alloc, member, &[2, 1])?;
    let lines = two_lines(alloc, first, second)?;
    let text = FaultText::AmbiguousName(word(alloc, b"n")?);
    let expected = "6:24: ambiguous name n\n  1:16 by bases 1 1\n  1:16 by bases 2 1\n";
    reports(alloc, at(6, 24), text, lines, expected)
}

fn shows_bases(alloc: Global) -> Result<bool, AllocError> {
    let first = by_bases(alloc, None, &[12])?;
    let second = by_bases(alloc, Some(at(1, 16)), &[])?;
    let lines = two_lines(alloc, first, second)?;
    let expected = "6:24: ambiguous base\n  by bases 12\n  1:16 by no base\n";
    reports(alloc, at(6, 24), FaultText::AmbiguousBase, lines, expected)
}

// The lines of a chain are numbered from 1, whatever stands before them.
#[test]
fn chains_are_numbered(rt: HostRuntime) -> Result<(), Fail> {
    assert!(rt; numbers_a_chain(rt.alloc())?);
    Ok(())
}

fn numbers_a_chain(alloc: Global) -> Result<bool, AllocError> {
    let outer = Link {
        of_class: true,
        template: at(1, 24),
        needed: at(2, 15),
    };
    let inner = Link {
        of_class: false,
        template: at(1, 24),
        needed: at(1, 58),
    };
    let mut lines = one_line(alloc, Evidence::Found(at(1, 1)))?;
    lines.push(Evidence::Chain(outer))?;
    lines.push(Evidence::Chain(inner))?;
    let expected =
        "1:58: depth limit 2\n  found at 1:1\n  1 class at 1:24 needed at 2:15\n  2 function at 1:24 needed at 1:58\n";
    reports(alloc, at(1, 58), FaultText::DepthLimit(2), lines, expected)
}

/// A reason, and its words.
type Row = (Reason, &'static str);

static REASONS: [Row; 10] = [
    (Reason::TooFewArguments, "too few arguments"),
    (Reason::TooManyArguments, "too many arguments"),
    (
        Reason::TooManyTemplateArguments,
        "too many template arguments",
    ),
    (
        Reason::WrongKind(2),
        "template argument 2 has the wrong kind",
    ),
    (Reason::NoMatch(1), "argument 1 does not match"),
    (Reason::TwoBases(1), "argument 1 matches two bases"),
    (Reason::Twice(3), "parameter 3 deduced twice"),
    (Reason::NotDeduced(10), "parameter 10 not deduced"),
    (Reason::ObjectNoConversion, "object argument: no conversion"),
    (Reason::NoConversion(1), "argument 1: no conversion"),
];

static SUBSTITUTIONS: [(SubstitutionText, &str); 10] = [
    (
        SubstitutionText::ForbiddenElement,
        "array of a forbidden element",
    ),
    (SubstitutionText::SizeBelowOne, "array size below 1"),
    (SubstitutionText::NoMemberType, "no such member type"),
    (SubstitutionText::MemberNoType, "member is not a type"),
    (
        SubstitutionText::QualifierNoClass,
        "qualifier is not a class",
    ),
    (SubstitutionText::PointerToReference, "pointer to reference"),
    (
        SubstitutionText::ReferenceToReference,
        "reference to reference",
    ),
    (SubstitutionText::ReferenceToVoid, "reference to void"),
    (SubstitutionText::VoidParameter, "parameter of type void"),
    (
        SubstitutionText::InvalidArgument,
        "invalid template argument",
    ),
];

// Whether a reason is told by some words.
fn says(alloc: Global, reason: Reason, words: &str) -> Result<bool, AllocError> {
    let shown = Shown::Declared(1, at(3, 24));
    let lines = one_line(alloc, Evidence::Refused(shown, reason))?;
    let mut expected = String::from_str(
        alloc,
        "4:15: no viable function\n  candidate 1 at 3:24: ",
    )?;
    expected.push_str(words)?;
    expected.push_str("\n")?;
    reports(
        alloc,
        at(4, 15),
        FaultText::NoViableFunction,
        lines,
        &expected,
    )
}

// Why a candidate is not viable, in words.
#[test]
fn reasons_have_words(rt: HostRuntime) -> Result<(), Fail> {
    for (reason, words) in &REASONS {
        assert!(rt; says(rt.alloc(), *reason, words)?, "{words}");
    }
    Ok(())
}

#[test]
fn substitutions_have_words(rt: HostRuntime) -> Result<(), Fail> {
    for (text, words) in &SUBSTITUTIONS {
        assert!(rt;
            says(rt.alloc(), Reason::Substitution(*text), words)?,
            "{words}"
        );
    }
    Ok(())
}
