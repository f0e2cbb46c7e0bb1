use cxx_model::{
    FactId, FactList, Listed, OperandList, OutcomeList, Place, ScopeId, StandardSequence, TreeId,
    TypeIdList,
};

/// What a call keeps of a viable candidate (13.3.3).
#[derive(Drop)]
pub struct Contending {
    /// Among the candidates, counted from 1.
    pub position: u32,
    pub parameters: TypeIdList,
    pub sequences: Listed<StandardSequence>,
}

pub type ContendingList = Listed<Contending>;

/// A call that was decided (13.3), with its candidates by their declarations.
#[derive(Drop)]
pub struct Decided {
    pub place: Place,
    pub operands: OperandList,
    pub candidates: FactList,
    pub outcomes: OutcomeList,
    /// One for each viable candidate, in order.
    pub rows: ContendingList,
    /// Counted from 1.
    pub chosen: u32,
}

pub type DecidedList = Listed<Decided>;

/// A name that was bound: where it was looked up, and what it means.
#[derive(Clone, Copy, PartialEq, Eq)]
pub struct Binding {
    pub scope: ScopeId,
    pub place: Place,
    pub target: FactId,
}

pub type BindingList = Listed<Binding>;

/// A default argument of a function (8.3.6): the declaration that has it, the index of its parameter there, and its tree, as
/// it is converted to the type of that.
#[derive(Clone, Copy, PartialEq, Eq)]
pub struct Fallback {
    pub declaration: FactId,
    pub index: u32,
    pub tree: TreeId,
}

pub type FallbackList = Listed<Fallback>;

/// A default argument that was read (8.3.6), of the parameter with an index in the list with a scope.
#[derive(Clone, Copy, PartialEq, Eq)]
pub struct Offer {
    pub scope: ScopeId,
    pub index: u32,
    pub tree: TreeId,
}

pub type OfferList = Listed<Offer>;

/// What was read by itself, with the names that were bound in it.
#[derive(Drop)]
pub struct Piece {
    pub tree: TreeId,
    pub scope: ScopeId,
    pub uses: BindingList,
}

pub type PieceList = Listed<Piece>;
