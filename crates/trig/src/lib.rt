// Sine and cosine of degrees, the squared limit of a rejection angle, and the angle of a point, held to an exact reference over whole numbers.
#![tactic(auto)]

pub mod calls; // calls.rt: sin_degrees, cos_degrees, angle_degrees
pub mod fixed; // fixed.rt: the series in fixed point
pub mod limit; // limit.rt: rejection_threshold
pub mod octant; // octant.rt: angles up to 45 degrees
pub mod point; // point.rt: angle
pub mod wave; // wave.rt: sin, cos, in_turn

pub use calls::{angle_degrees, cos_degrees, sin_degrees};
pub use limit::rejection_threshold;
pub use point::angle;
pub use wave::{cos, in_turn, sin};
