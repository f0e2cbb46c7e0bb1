//! Which function a call means (13.3), over a graph and a table of types, behind an object or with none.
//!
//! `candidates` takes the functions from the declarations that lookup found, `rate` asks how the object, where there is one,
//! and the arguments are converted to the parameters of each and whether it is viable, and `choose` gives the best viable
//! one, or what shows that none is. `decide` is all three. A `Chooser` is somebody who is asked, and who may tell where.
#![tactic(auto)]

mod candidate;
mod champion;
mod chooser;
mod contender;
mod conversion;
mod decision;
mod kept;
pub mod laws;
mod object;
mod order;
mod rating;

pub use candidate::{Candidate, candidates};
pub use champion::{Choice, choose, chosen, ties};
pub use chooser::{Champion, Chooser, Choosing, Recorder};
pub use contender::{Contender, contenders, refusals};
pub use conversion::Conversion;
pub use decision::{Decision, decide};
pub use kept::{parameters_met, standard_sequences};
pub use object::{Object, parameter_of};
pub use rating::{Rated, Ratings, rate};
