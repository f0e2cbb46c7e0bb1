//! Instances and specialisations of templates (14.5.4, 14.7).

use crate::listed::NumberList;
use crate::overload::CounterList;
use crate::types::{ClassId, FactId, ArgumentList, TemplateId};

/// What an instance is of (14.7.1).
#[derive(PartialEq, Eq, Hash, Drop)]
pub enum InstanceKey {
    OfClass(ClassId),
    /// A function, by its first fact or that of its template, with the arguments.
    OfFunction(FactId, ArgumentList),
}

/// Which definition of a class template its arguments pick (14.5.4.1).
#[derive(Drop)]
pub enum Picked {
    Primary,
    /// A partial specialisation, with its own arguments.
    Partial(TemplateId, ArgumentList),
    /// An explicit specialisation.
    Explicit(FactId),
    /// The partial specialisations that match, ascending, and a counter for each.
    Ambiguous(NumberList, CounterList),
}
