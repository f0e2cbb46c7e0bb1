//! The trees of a reading: what was read, and what each part of it means.

use crate::evidence::LinkList;
use crate::instances::InstanceKey;
use crate::listed::{Listed, NumberList, Text, Word};
use crate::place::Place;
use crate::sequence::Operand;
use crate::types::{ClassId, EnumId, FactId, ScopeId, TreeId, TypeId};

pub type TreeIdList = Listed<TreeId>;

/// One name of a path, with the trees of its template arguments where some are written (14.2).
#[derive(Drop)]
pub struct PathPart {
    pub word: Word,
    pub place: Place,
    pub arguments: Option<TreeIdList>,
}

pub type PathPartList = Listed<PathPart>;

/// A name as it is written, with its qualifiers (3.4.3).
#[derive(Drop)]
pub struct Path {
    /// Whether `::` stands before it.
    pub global: bool,
    pub parts: PathPartList,
}

/// What a name is to a reader of tokens.
#[derive(Clone, Copy, PartialEq, Eq)]
pub enum Kind {
    OfType,
    OfTemplate,
    /// The name of a class template in its own scope: a template where `<` follows, else a type (14.6.1).
    OfBoth,
    Space,
    Value,
}

/// A part of a reading: a production, what it covers, and what it means.
#[derive(Drop)]
pub struct Node {
    /// The number of the production.
    pub production: u8,
    pub children: TreeIdList,
    /// The numbers of its first and last token.
    pub first: u32,
    pub last: u32,
    /// The place of the first token.
    pub start: Place,
    /// The place of its questions, and else that of the first token.
    pub place: Place,
    /// The name that was read.
    pub path: Option<Path>,
    /// What an expression gives.
    pub operand: Option<Operand>,
    /// The type that was read.
    pub of: Option<TypeId>,
    /// The declaration to which a name was bound.
    pub target: Option<FactId>,
    /// The number of its call, from 0.
    pub call: Option<u32>,
    /// The spelling of a literal, of an operator, or of the keyword that tells the forms of a production apart.
    pub spelling: Text,
}

/// How an object is initialized (8.5).
#[derive(Clone, Copy, PartialEq, Eq)]
pub enum Form {
    Copy,
    Direct,
    Default,
    Aggregate,
}

/// What a statement converts an expression to (6.4, 6.6.3).
#[derive(Clone, Copy, PartialEq, Eq)]
pub enum Target {
    Condition,
    Switch,
    OfType(TypeId),
    /// The result of the function whose body is read.
    Result,
}

/// Where an expression stands.
#[derive(Clone, Copy, PartialEq, Eq)]
pub struct Here {
    pub scope: ScopeId,
    /// What stands before it is seen: the count of the facts.
    pub cut: FactId,
    /// The point of instantiation, for what depends on the arguments of a template (14.6.4.1).
    pub point: FactId,
    /// The type of `this` in a nonstatic member (9.3.2).
    pub this_type: Option<TypeId>,
    /// The enumeration whose list is being read (7.2).
    pub enumeration: Option<EnumId>,
}

/// A name that was bound, in the order of reading.
#[derive(Drop)]
pub struct Use {
    /// The scope in which the name was looked up.
    pub scope: ScopeId,
    pub place: Place,
    pub target: FactId,
    /// The class in which a member was looked up.
    pub naming: Option<ClassId>,
    /// The positions of the bases that lead to a member, from 1 (10.2).
    pub path: NumberList,
}

pub type UseList = Listed<Use>;

/// What is read by itself: a declaration of a namespace, a body, a default argument or an instance.
#[derive(Drop)]
pub struct Part {
    pub tree: TreeId,
    pub scope: ScopeId,
    /// The instance that it is, or that an explicit specialisation or instantiation names (14.7).
    pub instance: Option<InstanceKey>,
    /// The chain of an instance, the outermost first.
    pub chain: LinkList,
    pub uses: UseList,
}

pub type PartList = Listed<Part>;
