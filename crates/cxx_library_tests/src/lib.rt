//! Tests of the lowest libraries (streams and champions, tokens and literals, tables of types, templates in graphs, reports),
//! through their public calls.
#![tactic(auto)]

#[cfg(test)]
mod champion;
#[cfg(test)]
mod edge;
pub mod games;
#[cfg(test)]
mod places;
#[cfg(test)]
mod reports;
#[cfg(test)]
mod sample;
#[cfg(test)]
mod stopped;
#[cfg(test)]
mod templates;
#[cfg(test)]
mod tokens;
#[cfg(test)]
mod types;
