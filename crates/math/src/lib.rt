// Matrices and quaternions of f32, by value, in the Rust's operation order. They refuse nothing and follow IEEE 754. Their operators are
// named methods by value, as a vector's are.
#![tactic(auto)]

pub mod matrix; // matrix.rt
pub mod quaternion; // quaternion.rt

pub use matrix::Matrix;
pub use quaternion::Quaternion;
pub use vector::{Components, Vector};
