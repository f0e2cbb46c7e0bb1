//! What a fault rests on.

use crate::listed::{Listed, NumberList};
use crate::place::Place;

/// Why a part of a type cannot be made from the arguments of a template (14.8.2).
#[derive(Clone, Copy, Debug, PartialEq, Eq)]
pub enum SubstitutionText {
    /// An array of `void`, references or functions (8.3.4).
    ForbiddenElement,
    SizeBelowOne,
    NoMemberType,
    MemberNoType,
    QualifierNoClass,
    PointerToReference,
    ReferenceToReference,
    ReferenceToVoid,
    VoidParameter,
    /// A value that is no constant of its parameter's type.
    InvalidArgument,
}

/// Why a candidate is not viable (13.3.2, 14.8.2). Arguments and parameters are counted from 1.
#[derive(Clone, Copy, Debug, PartialEq, Eq)]
pub enum Reason {
    TooFewArguments,
    TooManyArguments,
    TooManyTemplateArguments,
    /// The template argument is a type in the place of a value, or a value in the place of a type.
    WrongKind(u32),
    /// The arguments of the template cannot stand in its types.
    Substitution(SubstitutionText),
    /// No argument of the template makes the parameter's type that of the argument.
    NoMatch(u32),
    /// The argument's class has two bases that match.
    TwoBases(u32),
    /// Two arguments give the parameter of the template different meanings.
    Twice(u32),
    /// No argument gives the parameter of the template a meaning.
    NotDeduced(u32),
    /// There is no sequence from the object to the implicit object parameter.
    ObjectNoConversion,
    /// There is no sequence from the argument to its parameter.
    NoConversion(u32),
}

/// A candidate as a report shows it, with its number among the candidates, from 1.
#[derive(Clone, Copy, Debug, PartialEq, Eq)]
pub enum Shown {
    /// With the place of its declared name.
    Declared(u32, Place),
    /// A built-in operator (13.6).
    BuiltIn(u32),
}

/// Why an instance of a template is read: its template's name, and where it was needed (14.7.1).
#[derive(Clone, Copy, Debug, PartialEq, Eq)]
pub struct Link {
    /// Whether it is an instance of a class template, and else of a function template.
    pub of_class: bool,
    pub template: Place,
    pub needed: Place,
}

pub type LinkList = Listed<Link>;

/// One line of what a fault rests on.
#[derive(Debug, PartialEq, Eq, Drop)]
pub enum Evidence {
    /// A declaration.
    Found(Place),
    /// A member, or a base where there is no place, by the positions of the bases that lead to it, from 1 (10.2).
    ByBases(Option<Place>, NumberList),
    /// The first candidate is not better than the second (13.3.3).
    DoesNotBeat(Shown, Shown),
    /// The candidate is not viable (13.3.2).
    Refused(Shown, Reason),
    /// The chosen candidate needs an ambiguous conversion of an argument, counted from 1 (13.3.3.1).
    Uses(Shown, u32),
    /// A line of a chain of instances. Its number is its position in the chain.
    Chain(Link),
    /// The first row of a recorded call is not better than the second.
    RowDoesNotBeat(u32, u32),
}

pub type EvidenceList = Listed<Evidence>;
