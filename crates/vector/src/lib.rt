// A vector of three f32: the Rust's math/vector.rs. Its operators are named methods by value that give back a vector, no operator traits: the
// project asks for that form.
#![tactic(auto)]

pub mod components; // components.rt: what a quaternion has too
pub mod turned; // turned.rt: a vector turned by a mounting, which alone refuses

ghost use Rattle.std.specs.Prelude.{◌≡◌};
ghost use Rattle.vector.specs.Vectors.{vector, ones_vector, finite_vector, is_zero_of, exceeds_of, sum_of, hadamard_of, dot_of, cross_of};
ghost use Rattle.vector.specs.Vectors.{norm_squared_of, norm_of, is_norm_squared, is_norm, normalize_of, add_of, sub_of, neg_of, mul_of, from_array_of, to_array_of};

pub use components::Components;
pub use turned::axes_of;

#[derive(Clone, Copy, Debug, PartialEq)]
pub struct Vector {
    pub x: f32,
    pub y: f32,
    pub z: f32,
}

impl Vector {
    pub const ZERO: Vector = Vector {
        x: 0.0,
        y: 0.0,
        z: 0.0,
    };

    pub const ONES: Vector = Vector {
        x: 1.0,
        y: 1.0,
        z: 1.0,
    };

    // No other function gives the constant, so that its value is promised here.
    pub fn ones() -> Vector
        ensures { result ≡ ones_vector }
    {
        Vector::ONES
    }

    pub fn new(x: f32, y: f32, z: f32) -> Vector
        ensures { result ≡ vector x y z }
    {
        Vector { x, y, z }
    }

    // Whether no component is a NaN or an infinity.
    #[tactic(auto, unfolding(crate::specs::Vectors::finite_vector))]
    pub fn is_finite(self) -> bool
        ensures { result ≡ finite_vector self }
    {
        number::is_finite(self.x) & number::is_finite(self.y) & number::is_finite(self.z)
    }

    pub fn is_zero(self) -> bool
        ensures { result ≡ is_zero_of self }
    {
        (self.x == 0.0) & (self.y == 0.0) & (self.z == 0.0)
    }

    // Whether some component is larger in size than the limit.
    #[tactic(auto, unfolding(crate::specs::Vectors::exceeds_of))]
    pub fn exceeds(self, limit: f32) -> bool
        ensures { result ≡ exceeds_of self limit }
    {
        number::is_larger(self.x, limit)
            | number::is_larger(self.y, limit)
            | number::is_larger(self.z, limit)
    }

    #[tactic(auto, unfolding(crate::specs::Vectors::dot_of))]
    pub fn dot(self, rhs: Vector) -> f32
        ensures { result ≡ dot_of self rhs }
    {
        self.hadamard(rhs).sum()
    }

    pub fn cross(self, rhs: Vector) -> Vector
        ensures { result ≡ cross_of self rhs }
    {
        Vector {
            x: self.y * rhs.z - self.z * rhs.y,
            y: self.z * rhs.x - self.x * rhs.z,
            z: self.x * rhs.y - self.y * rhs.x,
        }
    }

    // Times the reciprocal of the norm; a vector whose norm is zero gives zero.
    #[tactic(auto, unfolding(crate::specs::Vectors::normalize_of))]
    pub fn normalize(self) -> Vector
        ensures { result ≡ normalize_of self }
    {
        let norm = self.norm();
        if norm == 0.0 {
            return Vector::ZERO;
        }
        self.mul(1.0 / norm)
    }

    pub fn add(self, rhs: Vector) -> Vector
        ensures { result ≡ add_of self rhs }
    {
        Vector {
            x: self.x + rhs.x,
            y: self.y + rhs.y,
            z: self.z + rhs.z,
        }
    }

    pub fn sub(self, rhs: Vector) -> Vector
        ensures { result ≡ sub_of self rhs }
    {
        Vector {
            x: self.x - rhs.x,
            y: self.y - rhs.y,
            z: self.z - rhs.z,
        }
    }

    pub fn neg(self) -> Vector
        ensures { result ≡ neg_of self }
    {
        Vector {
            x: -self.x,
            y: -self.y,
            z: -self.z,
        }
    }

    pub fn mul(self, rhs: f32) -> Vector
        ensures { result ≡ mul_of self rhs }
    {
        Vector {
            x: self.x * rhs,
            y: self.y * rhs,
            z: self.z * rhs,
        }
    }
}

impl Components for Vector {
    ghost summed = { sum_of };

    ghost multiplied = { hadamard_of };

    ghost squared = { norm_squared_of };

    ghost length = { norm_of };

    ghost is_squared = { is_norm_squared };

    ghost is_length = { is_norm };

    fn sum(self) -> f32 {
        self.x + self.y + self.z
    }

    fn hadamard(self, rhs: Vector) -> Vector {
        Vector {
            x: self.x * rhs.x,
            y: self.y * rhs.y,
            z: self.z * rhs.z,
        }
    }
}

impl From<[f32; 3]> for Vector {
    ghost from_gives = { λ a v. v ≡ from_array_of a };

    fn from(xyz: [f32; 3]) -> Vector {
        let [x, y, z] = xyz;
        Vector { x, y, z }
    }
}

impl From<Vector> for [f32; 3] {
    ghost from_gives = { λ v a. a ≡ to_array_of v };

    fn from(v: Vector) -> [f32; 3] {
        [v.x, v.y, v.z]
    }
}
