// Where gravity and west lie in the sensor's frame, half as long, by the convention: a formula for each, and of any number, as half_gravity_of and
// half_west_of are.
ghost use Rattle.std.specs.Prelude.{◌≡◌};
ghost use Rattle.step.specs.Direction.{half_gravity_of, half_west_of};

use math::Quaternion;
use settings::{ENU, NED, NWU};
use vector::Vector;

// Half of gravity's direction in the sensor's frame.
#[tactic(auto, unfolding(crate::specs::Direction::half_gravity_of))]
pub fn calculate_half_gravity(convention: u8, q: Quaternion) -> Vector
    ensures { result ≡ half_gravity_of convention q }
{
    match convention {
        NED => Vector {
            x: q.w * q.y - q.x * q.z,
            y: -(q.y * q.z + q.w * q.x),
            z: 0.5 - q.w * q.w - q.z * q.z,
        },
        _ => Vector {
            x: q.x * q.z - q.w * q.y,
            y: q.y * q.z + q.w * q.x,
            z: q.w * q.w - 0.5 + q.z * q.z,
        },
    }
}

// Half of west's direction in the sensor's frame.
#[tactic(auto, unfolding(crate::specs::Direction::half_west_of))]
pub fn calculate_half_west(convention: u8, q: Quaternion) -> Vector
    ensures { result ≡ half_west_of convention q }
{
    match convention {
        NWU => Vector {
            x: q.x * q.y + q.w * q.z,
            y: q.w * q.w - 0.5 + q.y * q.y,
            z: q.y * q.z - q.w * q.x,
        },
        ENU => Vector {
            x: 0.5 - q.w * q.w - q.x * q.x,
            y: q.w * q.z - q.x * q.y,
            z: -(q.x * q.z + q.w * q.y),
        },
        _ => Vector {
            x: -(q.x * q.y + q.w * q.z),
            y: 0.5 - q.w * q.w - q.y * q.y,
            z: q.w * q.x - q.y * q.z,
        },
    }
}
