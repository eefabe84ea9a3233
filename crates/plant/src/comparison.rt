//! Comparison of plants: whether two plants, their rows or what their operators share are the same.

mod same;

pub use same::{are_same_consts, is_same_name, is_same_plant, is_same_row, keeps_consts};
