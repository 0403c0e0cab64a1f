//! Contractions of blocks by panels and tiles, for every split of up to six dimensions.
#![tactic(auto)]

mod axis;
mod by_panels;
mod contracting;
mod fronts;
pub mod laws;
mod line;
mod order;
mod packing;
mod panel;
mod run;
mod splits;
mod storing;
mod tile_sums;
mod tiled;
mod tiles;
mod walk;

pub use axis::Axis;
pub use contracting::contract;
pub use order::is_by_rows;
pub use splits::contract_any;
pub use tiles::{tile, tile_any};
