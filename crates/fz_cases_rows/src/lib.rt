//! Arrays of tiles and the parts of tiles in a cutout, in rows that were worked out by hand, and against walks over all pixels. Then
//! files that were written out by hand: what a job learns of their headers and takes for them, what is fetched of the rows of packed
//! images, what is refused, and what is written.
//!
//! Reading order: `asserts`, `lawful`, `grid`, `parts`; `survey`, `fetch`, `marks`.
#![tactic(auto)]

#[cfg(test)]
mod asserts;
#[cfg(test)]
mod fetch;
#[cfg(test)]
mod grid;
#[cfg(test)]
mod lawful;
#[cfg(test)]
mod marks;
#[cfg(test)]
mod parts;
#[cfg(test)]
mod survey;
