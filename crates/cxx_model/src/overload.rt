//! Questions about functions: who is asked, what stands for an answer, and what is kept of it (13.3).

use crate::evidence::Reason;
use crate::listed::{Listed, NumberList, Word};
use crate::place::Place;
use crate::sequence::{Operand, OperandList, SequenceList};
use crate::types::{ClassId, FactId, FactList, ScopeId, ArgumentList, TypeId, TypeIdList};

/// What is asked (13.3.1).
#[derive(Clone, Copy, PartialEq, Eq)]
pub enum QuestionKind {
    Call,
    /// The number of the operator's spelling.
    Operator(u8),
    /// A constructor; in copy-initialization the converting ones and conversion functions.
    Construct { copy: bool },
    /// A conversion function.
    Convert,
}

/// Which function is meant (13.3).
#[derive(Drop)]
pub struct Question {
    pub kind: QuestionKind,
    pub place: Place,
    pub scope: ScopeId,
    /// The called name, where it is unqualified and stands in no parentheses; else it is empty.
    pub word: Word,
    /// The functions that lookup found.
    pub functions: FactList,
    /// The object of a call of a member.
    pub object: Option<Operand>,
    pub arguments: OperandList,
    /// The template arguments that are written.
    pub explicit: ArgumentList,
    /// The type that a construction or conversion leads to.
    pub target: Option<TypeId>,
    /// What stands before it is seen: the count of the facts.
    pub cut: FactId,
    /// The point of instantiation, for what depends on the arguments of a template (14.6.4.1).
    pub point: FactId,
}

/// A function that may be meant (13.3.1).
#[derive(Drop)]
pub enum Candidate {
    /// A declared one, with the arguments of its template.
    Named(FactId, ArgumentList),
    /// A built-in operator, by the types of its parameters (13.6).
    BuiltIn(TypeIdList),
}

pub type CandidateList = Listed<Candidate>;

/// Whether a candidate is viable, and if not, why (13.3.2).
#[derive(Clone, Copy, Debug, PartialEq, Eq)]
pub enum Outcome {
    Viable,
    NotViable(Reason),
}

pub type OutcomeList = Listed<Outcome>;

pub type ReasonList = Listed<Reason>;

/// A candidate, and the first one that it does not beat, counted from 1 (13.3.3).
#[derive(Clone, Copy, PartialEq, Eq)]
pub struct Counter {
    pub candidate: u32,
    pub rival: u32,
}

pub type CounterList = Listed<Counter>;

/// The answer to a question (13.3.3).
#[derive(Drop)]
pub enum Choice {
    /// The best viable candidate, counted from 1. A built-in one has no function.
    Chosen {
        candidate: u32,
        function: Option<FactId>,
        arguments: ArgumentList,
        sequences: SequenceList,
    },
    /// The reason of each candidate.
    NoneViable(ReasonList),
    /// A counter for each viable candidate.
    Ambiguous(CounterList),
    /// The best viable candidate needs an ambiguous conversion of an argument.
    UsesAmbiguous {
        candidate: u32,
        argument: u32,
    },
}

/// What a call keeps of one viable candidate.
#[derive(Drop)]
pub struct Row {
    /// Counted from 1.
    pub candidate: u32,
    /// Whether it is a specialisation of a function template.
    pub template: bool,
    pub operands: OperandList,
    pub parameters: TypeIdList,
    pub sequences: SequenceList,
    /// The result and the target of an initialization by user-defined conversion (13.3.3).
    pub result: Option<Operand>,
    pub target: Option<TypeId>,
}

pub type RowList = Listed<Row>;

/// A call as it was decided.
#[derive(Drop)]
pub struct Call {
    pub place: Place,
    pub candidates: CandidateList,
    pub outcomes: OutcomeList,
    /// One row for each viable candidate, in order.
    pub rows: RowList,
    /// The pairs of candidates whose first has the more specialised template (14.5.5.2).
    pub more: CounterList,
    /// The chosen candidate, counted from 1.
    pub chosen: u32,
    /// The type of the chosen function, with its template arguments in place; a built-in one has none.
    pub of: Option<TypeId>,
}

pub type CallList = Listed<Call>;

/// What a name means where a value is read (3.4).
#[derive(Drop)]
pub struct Named {
    pub facts: FactList,
    /// The template arguments that are written.
    pub explicit: ArgumentList,
    /// The class in which a member was looked up.
    pub naming: Option<ClassId>,
    /// The positions of the bases that lead to a member, from 1 (10.2).
    pub path: NumberList,
}

/// What a built-in operator does: the types of its operands, and what it gives (clause 5).
#[derive(Drop)]
pub struct BuiltIn {
    pub operands: TypeIdList,
    pub result: TypeId,
    pub lvalue: bool,
}
