// Tables of element sets: document 01, "Tables of element sets".
#![tactic(auto)]

mod insertion;
mod lookup;
mod table;

pub use insertion::put;
pub use lookup::{Row, find, locate};
