//! The table of a packed image: its rows, its columns of array descriptors, and its heap.
//!
//! Reading order: `column`, `array`, `table`, `row`, `record`, `rows`, `choice`, `reading`, `neighbours`; then `cards`, `form`, `checks`, `columns`.
#![tactic(auto)]

mod array;
mod cards;
mod checks;
mod choice;
mod column;
mod columns;
mod form;
mod neighbours;
mod reading;
mod record;
mod row;
mod rows;
mod table;

pub use array::Descriptor;
pub use cards::{first_named, is_called};
pub use choice::record_of;
pub use column::Column;
pub use columns::is_described;
pub use form::first_digits;
pub use neighbours::{filled_law, is_filled, row_in, row_in_law};
pub use reading::{find_record, read_record, read_rest, read_row, row_reads_law};
pub use record::{Record, Tile, TileColumn};
pub use row::Row;
pub use rows::{descriptor, descriptor_law, range, write_row};
pub use table::Table;
