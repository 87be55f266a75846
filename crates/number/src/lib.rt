// Numbers: the size of a float and whether it is finite, and whole numbers as the Rust converts, adds and clamps them.
#![tactic(auto)]

pub mod float; // float.rt: MAX, fabsf, is_larger, is_finite
pub mod whole; // whole.rt: to_u32, to_i32, from_i32, saturating_add, saturating_sub, clamp

pub use float::{MAX, fabsf, is_finite, is_larger};
pub use whole::{clamp, from_i32, saturating_add, saturating_sub, to_i32, to_u32};
