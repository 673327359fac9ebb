//! Lines of the grammar of the command line, beside their nearest neighbours that are outside it, and what some of them ask for.
//!
//! Reading order: `asserts`, `lines`, `grammar`, `patches`.
#![tactic(auto)]

#[cfg(test)]
mod asserts;
#[cfg(test)]
mod grammar;
#[cfg(test)]
mod lines;
#[cfg(test)]
mod patches;
