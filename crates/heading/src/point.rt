// The two points of an orientation whose angles are its yaw and its roll: two formulas of other components, so two functions.
ghost use Rattle.std.specs.Prelude.{◌≡◌};
ghost use Rattle.heading.specs.Turn.{finite_point, angle_at, yaw_of, roll_of};

use math::Quaternion;

#[derive(Clone, Copy, Debug, PartialEq)]
pub(crate) struct Point {
    y: f32,
    x: f32,
}

impl Point {
    #[tactic(auto, unfolding(crate::specs::Turn::finite_point))]
    pub(crate) fn is_finite(self) -> bool
        ensures { result ≡ finite_point self }
    {
        number::is_finite(self.y) & number::is_finite(self.x)
    }

    pub(crate) fn angle(self) -> f32
        ensures { result ≡ angle_at self }
    {
        trig::angle(self.y, self.x)
    }
}

#[tactic(auto, unfolding(crate::specs::Turn::yaw_of))]
pub(crate) fn yaw(q: Quaternion) -> Point
    ensures { result ≡ yaw_of q }
{
    Point {
        y: q.w * q.z + q.x * q.y,
        x: 0.5 - q.y * q.y - q.z * q.z,
    }
}

#[tactic(auto, unfolding(crate::specs::Turn::roll_of))]
pub(crate) fn roll(q: Quaternion) -> Point
    ensures { result ≡ roll_of q }
{
    Point {
        y: q.w * q.x + q.y * q.z,
        x: 0.5 - q.y * q.y - q.x * q.x,
    }
}
