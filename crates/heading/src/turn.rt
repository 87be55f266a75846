// What a heading makes of an orientation: the orientation turned to it, and the magnetometer that would show it.
ghost use Rattle.std.specs.Prelude.{◌≡◌};
ghost use Rattle.heading.specs.Turn.{headed_of, magnetometer_of};

use super::point::{roll, yaw};
use math::Quaternion;
use vector::Vector;

// Turned about the vertical; roll and pitch stay.
#[tactic(auto, unfolding(crate::specs::Turn::headed_of))]
pub(crate) fn headed(q: Quaternion, heading: f32) -> Quaternion
    ensures { result ≡ headed_of q heading }
{
    let half_yaw_minus_heading = 0.5 * (yaw(q).angle() - heading);
    let rotation = Quaternion::new(
        trig::cos(half_yaw_minus_heading),
        0.0,
        0.0,
        -trig::sin(half_yaw_minus_heading),
    );
    rotation.product(q)
}

#[tactic(auto, unfolding(crate::specs::Turn::magnetometer_of))]
pub(crate) fn heading_magnetometer(q: Quaternion, heading: f32) -> Vector
    ensures { result ≡ magnetometer_of q heading }
{
    let roll_angle = roll(q).angle();
    let sin_heading = trig::sin(heading);
    Vector::new(
        trig::cos(heading),
        -trig::cos(roll_angle) * sin_heading,
        sin_heading * trig::sin(roll_angle),
    )
}
