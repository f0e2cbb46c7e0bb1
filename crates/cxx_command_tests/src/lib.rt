//! Tests of whole runs and of what is asked while a unit is read, through their public calls.
#![tactic(auto)]

#[cfg(test)]
mod asking;
#[cfg(test)]
mod command;
