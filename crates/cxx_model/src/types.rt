//! Types as trees, and the numbers by which tables and lists name things.

use crate::base::Base;
use crate::listed::{Listed, Word};

/// A declaration, by its place in the list of facts.
#[derive(Clone, Copy, PartialEq, Eq, Hash)]
pub struct FactId(pub u32);

/// A scope, by its place among the scopes.
#[derive(Clone, Copy, PartialEq, Eq, Hash)]
pub struct ScopeId(pub u32);

/// A class, by its place among the reserved classes.
#[derive(Clone, Copy, PartialEq, Eq, Hash)]
pub struct ClassId(pub u32);

/// An enumeration, by its place among the enumerations.
#[derive(Clone, Copy, PartialEq, Eq, Hash)]
pub struct EnumId(pub u32);

/// A template, by its place among the templates.
#[derive(Clone, Copy, PartialEq, Eq, Hash)]
pub struct TemplateId(pub u32);

/// An instance of a template, by its place among the instances.
#[derive(Clone, Copy, PartialEq, Eq, Hash)]
pub struct InstanceId(pub u32);

/// A tree of a reading, by its place among the trees.
#[derive(Clone, Copy, PartialEq, Eq, Hash)]
pub struct TreeId(pub u32);

/// A type, by its place in a table of types.
#[derive(Clone, Copy, PartialEq, Eq, Hash)]
pub struct TypeId(pub u64);

/// The words `const` and `volatile` (3.9.3).
#[derive(Clone, Copy, PartialEq, Eq, Hash)]
pub struct Cv {
    pub is_const: bool,
    pub is_volatile: bool,
}

pub type FactList = Listed<FactId>;

pub type TypeIdList = Listed<TypeId>;

pub type TypeIdLists = Listed<TypeIdList>;

pub type ArgumentList = Listed<Argument>;

pub type TypeList = Vec<TypeTree>;

/// A type (3.9, 8.3). What stands in an argument or a formula is named by its number in a table of types.
#[cycle(types)]
#[derive(Drop)]
pub enum TypeTree {
    /// A fundamental type (3.9.1).
    Plain(Base),
    /// A class (9).
    Class(ClassId),
    /// An enumeration (7.2).
    Enum(EnumId),
    /// 8.3.1
    Pointer(Box<TypeTree>),
    /// 8.3.2
    Reference(Box<TypeTree>),
    /// 8.3.4
    Array(Box<TypeTree>, Bound),
    /// 8.3.5
    Function(Box<Signature>),
    /// 3.9.3
    Qualified(Cv, Box<TypeTree>),
    /// A type parameter of a template, by the depth of its list and its index there (14.1).
    Parameter(u32, u32),
    /// A specialisation whose arguments name parameters of templates (14.2).
    Special(TemplateId, ArgumentList),
    /// A type named as a member of a type that depends on parameters of templates (14.6).
    Nested(Box<TypeTree>, Word),
}

/// The type of a function (8.3.5).
#[cycle(types)]
#[derive(Drop)]
pub struct Signature {
    pub result: TypeTree,
    pub parameters: TypeList,
    pub ellipsis: bool,
    /// The words behind the parameter list of a nonstatic member.
    pub cv: Cv,
}

/// An argument of a template (14.3).
#[derive(PartialEq, Eq, Hash, Drop)]
pub enum Argument {
    OfType(TypeId),
    Value(i128, TypeId),
    /// A value that depends on parameters of templates.
    Computed(Box<Formula>),
}

/// The bound of an array (8.3.4).
#[derive(PartialEq, Eq, Hash, Drop)]
pub enum Bound {
    Unknown,
    Number(u64),
    /// A bound that depends on parameters of templates.
    Computed(Box<Formula>),
}

/// A constant expression that depends on parameters of templates (5.19, 14.6.2.3).
#[derive(PartialEq, Eq, Hash, Drop)]
pub enum Formula {
    Value(i128, TypeId),
    /// A parameter that is no type, by the depth of its list and its index there (14.1).
    Parameter(u32, u32),
    Member(TypeId, Word),
    SizeOf(TypeId),
    Cast(TypeId, Box<Formula>),
    /// The number of an operator, and its operand.
    Unary(u8, Box<Formula>),
    Binary(u8, Box<Formula>, Box<Formula>),
    Conditional(Box<Formula>, Box<Formula>, Box<Formula>),
}

/// The outermost part of a type, with the numbers of its parts in a table of types.
#[derive(PartialEq, Eq, Hash, Drop)]
pub enum TypeNode {
    Plain(Base),
    Class(ClassId),
    Enum(EnumId),
    Pointer(TypeId),
    Reference(TypeId),
    Array(TypeId, Bound),
    Function {
        result: TypeId,
        parameters: TypeIdList,
        ellipsis: bool,
        cv: Cv,
    },
    Qualified(Cv, TypeId),
    Parameter(u32, u32),
    Special(TemplateId, ArgumentList),
    Nested(TypeId, Word),
}
