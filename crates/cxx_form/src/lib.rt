//! The plain form of a reading, from the state that the reading leaves.
//!
//! Its lines are listed once: classes, enumerations, then definitions of classes, then functions,
//! then objects, then definitions of functions. What they declare, in their order, gives each name
//! its number; functions of classes with one name and one list of parameters have one number, and
//! are found by hashing. Tables hold the number of each declaration, where each enumeration is declared, its
//! enumerators and its printed name, and the objects and the functions of a class in each scope;
//! each is made in one pass, and the graph keeps the bases of each class, so the time is that of
//! the declarations, the trees and the text.
#![tactic(auto)]

mod bases;
mod behind;
mod book;
mod called;
mod calls;
mod classes;
mod constants;
mod declaring;
mod defined;
mod definitions;
mod enumerations;
mod enumerators;
mod facts;
mod form;
mod found;
mod heads;
mod held;
mod initializers;
mod lines;
mod mark;
mod marked;
mod members;
mod names;
mod numbering;
mod objects;
mod order;
mod outside;
mod parts;
mod production;
mod rows;
mod scoped;
mod shared;
mod signatures;
mod slots;
mod text;
mod values;
mod words;

pub use calls::printed_calls;
pub use cxx_page::PlainFault;
pub use form::{Printed, print_reading};
pub use lines::{Line, plain_lines};
