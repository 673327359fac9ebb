//! Tests that need more than files and words: sources, sinks and gates of their own, calls below `run`, and facts that compare
//! several runs.
//!
//! Reading order: `alike`; the files `files`, `changes`, `small`, `grids`, `records`, `headers`, `others`, `rows`, `patch_files`;
//! `statuses`, `memory`, `large`, `beside`, `counting`, `drill_job`, `pieces`, `retile_parts`; `changing`, `changing_file`, `changing_patch`;
//! `patching`, `patch_writes`, `patch_cases`, `patch_stops`, `patch_recovers`.
mod alike;
mod beside;
mod changes;
mod changing;
mod changing_file;
mod changing_patch;
mod counting;
mod drill_job;
mod files;
mod grids;
mod headers;
mod large;
mod memory;
mod others;
mod patch_cases;
mod patch_files;
mod patch_recovers;
mod patch_stops;
mod patch_writes;
mod patching;
mod pieces;
mod records;
mod retile_parts;
mod rows;
mod small;
mod statuses;
