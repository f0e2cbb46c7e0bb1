//! What names with their qualifiers mean where the reader stands (3.4.1, 3.4.3), and how the reading stops at those that mean
//! nothing that may stand there.
#![tactic(auto)]

mod classes;
mod faults;
mod last;
mod regions;
mod seeking;
mod spaces;

pub use faults::{
    ambiguous, ambiguous_member, ambiguous_name, not_wanted, not_wanted_name, place_among,
    place_of, unambiguous, unambiguous_name, undeclared, undeclared_name, wrong_kind, wrong_name,
};
pub use last::{last_place, last_word};
pub use regions::{
    member_region_here, region_behind, region_here, scope_of, space_region_here, using_region_here,
};
pub use seeking::{found_in, found_of, name_sought, set_in, sought_in};
pub use spaces::space_among;
