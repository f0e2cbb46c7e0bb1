use crate::name::NameToken;
use cxx_model::{Cv, Listed, ScopeId, TreeIdList, TypeIdList};

/// What a part of a declarator makes of a type (8.3).
#[derive(Drop)]
pub enum Layer {
    /// With the words behind the `*` (8.3.1).
    Pointer(Cv),
    Reference,
    /// With the bound, where one is written (8.3.4).
    Array(Option<u64>),
    /// A function, with the types of its parameters as they are declared (8.3.5).
    Function {
        parameters: TypeIdList,
        ellipsis: bool,
        scope: ScopeId,
    },
}

pub type LayerList = Listed<Layer>;

/// A declarator (8), with its layers from the name outward.
#[derive(Drop)]
pub struct Declarator {
    pub name: Option<NameToken>,
    /// Whether the name has qualifiers; it is the last part of them then (8.3).
    pub is_qualified: bool,
    pub layers: LayerList,
    /// The words behind the parameters of the function that it declares, which only those of a class heed (8.3.5).
    pub cv: Cv,
    pub parts: TreeIdList,
}

/// A list of parameters (8.3.5).
#[derive(Drop)]
pub struct ParameterTypes {
    pub types: TypeIdList,
    pub ellipsis: bool,
    pub scope: ScopeId,
    pub parts: TreeIdList,
}
