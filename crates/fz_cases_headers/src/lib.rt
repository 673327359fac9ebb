//! Rows of objects in memory and of real files, of cards, of the tables of names, of shifted decimals, of headers that are taken and
//! refused, and of packed tables; and headers of images and of packed images, on files that are made here: their plans, the checks
//! that refuse them, and their bytes there and back.
//!
//! Reading order: `asserts`, `base`, `store`, `beyond`, `cards`, `names`, `wcs`, `block`, `table`; `files` (what the others have in common),
//! `images`, `tables`, `headers`, `jobs`.
#![tactic(auto)]

#[cfg(test)]
mod asserts;
#[cfg(test)]
mod base;
#[cfg(test)]
mod beyond;
#[cfg(test)]
mod block;
#[cfg(test)]
mod cards;
#[cfg(test)]
mod files;
#[cfg(test)]
mod headers;
#[cfg(test)]
mod images;
#[cfg(test)]
mod jobs;
#[cfg(test)]
mod names;
#[cfg(test)]
mod store;
#[cfg(test)]
mod table;
#[cfg(test)]
mod tables;
#[cfg(test)]
mod wcs;
