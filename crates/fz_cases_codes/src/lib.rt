//! Codes that were worked out by hand, and lists of numbers, masks and bytes there and back: bits, the codes of a tile, a tile, and
//! checksums; and the window in which workers code tiles side by side.
//!
//! Reading order: `asserts`, `random`, `bits`, `rice`, `plio`, `tile`, `sum`, `pool`.
#![tactic(auto)]

#[cfg(test)]
mod asserts;
#[cfg(test)]
mod bits;
#[cfg(test)]
mod plio;
#[cfg(test)]
mod pool;
#[cfg(test)]
mod random;
#[cfg(test)]
mod rice;
#[cfg(test)]
mod sum;
#[cfg(test)]
mod tile;
