//! From what a plain form is written.

use crate::numbering::Numbering;
use crate::rows::Rows;
use cxx_model::FactId;
use cxx_page::Tags;
use cxx_tree::State;

/// A state, and the tables that were made of it: the declaration whose number each one has, the numbers of names, the printed
/// names of enumerations, their enumerators, and the objects and the functions of classes in scopes.
#[derive(Clone, Copy)]
pub(crate) struct Book<'a> {
    pub state: &'a State,
    pub firsts: &'a [FactId],
    pub numbering: &'a Numbering,
    pub tags: &'a Tags,
    pub enumerators: &'a Rows,
    pub parts: &'a Rows,
}
