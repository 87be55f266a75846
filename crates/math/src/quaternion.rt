// A quaternion of f32, the scalar part first: the Rust's math/quaternion.rs. Its length is whatever it is: nothing makes it 1.
ghost use Rattle.std.specs.Prelude.{◌≡◌};
ghost use Rattle.math.specs.Quaternions.{quaternion, finite_quaternion, sum_of, hadamard_of, vector_product_of, conjugate_of, norm_squared_of};
ghost use Rattle.math.specs.Quaternions.{norm_of, is_norm_squared, is_norm, normalize_of, to_matrix_of, rotate_of, add_of, mul_of, product_of, from_array_of, to_array_of};

use super::matrix::Matrix;
use vector::{Components, Vector};

#[derive(Clone, Copy, Debug, PartialEq)]
pub struct Quaternion {
    pub w: f32,
    pub x: f32,
    pub y: f32,
    pub z: f32,
}

impl Quaternion {
    pub const IDENTITY: Quaternion = Quaternion {
        w: 1.0,
        x: 0.0,
        y: 0.0,
        z: 0.0,
    };

    pub fn new(w: f32, x: f32, y: f32, z: f32) -> Quaternion
        ensures { result ≡ quaternion w x y z }
    {
        Quaternion { w, x, y, z }
    }

    // Whether no component is a NaN or an infinity.
    #[tactic(auto, unfolding(crate::specs::Quaternions::finite_quaternion))]
    pub fn is_finite(self) -> bool
        ensures { result ≡ finite_quaternion self }
    {
        number::is_finite(self.w)
            & number::is_finite(self.x)
            & number::is_finite(self.y)
            & number::is_finite(self.z)
    }

    // The product with a vector as a quaternion whose scalar part is zero.
    pub fn vector_product(self, v: Vector) -> Quaternion
        ensures { result ≡ vector_product_of self v }
    {
        Quaternion {
            w: -self.x * v.x - self.y * v.y - self.z * v.z,
            x: self.w * v.x + self.y * v.z - self.z * v.y,
            y: self.w * v.y - self.x * v.z + self.z * v.x,
            z: self.w * v.z + self.x * v.y - self.y * v.x,
        }
    }

    pub fn conjugate(self) -> Quaternion
        ensures { result ≡ conjugate_of self }
    {
        Quaternion {
            w: self.w,
            x: -self.x,
            y: -self.y,
            z: -self.z,
        }
    }

    // Times the reciprocal of the norm. A zero quaternion gives NaNs, as in the Rust.
    #[tactic(auto, unfolding(crate::specs::Quaternions::normalize_of))]
    pub fn normalize(self) -> Quaternion
        ensures { result ≡ normalize_of self }
    {
        self.mul(1.0 / self.norm())
    }

    // The matrix that takes a vector from the sensor's frame to the Earth's.
    pub fn to_matrix(self) -> Matrix
        ensures { result ≡ to_matrix_of self }
    {
        let two_w = 2.0 * self.w;
        let two_x = 2.0 * self.x;
        let two_y = 2.0 * self.y;
        let two_z = 2.0 * self.z;
        Matrix {
            xx: two_w * self.w - 1.0 + two_x * self.x,
            xy: two_x * self.y - two_w * self.z,
            xz: two_x * self.z + two_w * self.y,
            yx: two_x * self.y + two_w * self.z,
            yy: two_w * self.w - 1.0 + two_y * self.y,
            yz: two_y * self.z - two_w * self.x,
            zx: two_x * self.z - two_w * self.y,
            zy: two_y * self.z + two_w * self.x,
            zz: two_w * self.w - 1.0 + two_z * self.z,
        }
    }

    #[tactic(auto, unfolding(crate::specs::Quaternions::rotate_of))]
    pub fn rotate(self, v: Vector) -> Vector
        ensures { result ≡ rotate_of self v }
    {
        self.to_matrix().mul_vector(v)
    }

    pub fn add(self, rhs: Quaternion) -> Quaternion
        ensures { result ≡ add_of self rhs }
    {
        Quaternion {
            w: self.w + rhs.w,
            x: self.x + rhs.x,
            y: self.y + rhs.y,
            z: self.z + rhs.z,
        }
    }

    pub fn mul(self, rhs: f32) -> Quaternion
        ensures { result ≡ mul_of self rhs }
    {
        Quaternion {
            w: self.w * rhs,
            x: self.x * rhs,
            y: self.y * rhs,
            z: self.z * rhs,
        }
    }

    // Hamilton's product.
    pub fn product(self, rhs: Quaternion) -> Quaternion
        ensures { result ≡ product_of self rhs }
    {
        Quaternion {
            w: self.w * rhs.w - self.x * rhs.x - self.y * rhs.y - self.z * rhs.z,
            x: self.w * rhs.x + self.x * rhs.w + self.y * rhs.z - self.z * rhs.y,
            y: self.w * rhs.y - self.x * rhs.z + self.y * rhs.w + self.z * rhs.x,
            z: self.w * rhs.z + self.x * rhs.y - self.y * rhs.x + self.z * rhs.w,
        }
    }
}

impl Components for Quaternion {
    ghost summed = { sum_of };

    ghost multiplied = { hadamard_of };

    ghost squared = { norm_squared_of };

    ghost length = { norm_of };

    ghost is_squared = { is_norm_squared };

    ghost is_length = { is_norm };

    fn sum(self) -> f32 {
        self.w + self.x + self.y + self.z
    }

    fn hadamard(self, rhs: Quaternion) -> Quaternion {
        Quaternion {
            w: self.w * rhs.w,
            x: self.x * rhs.x,
            y: self.y * rhs.y,
            z: self.z * rhs.z,
        }
    }
}

impl From<[f32; 4]> for Quaternion {
    ghost from_gives = { λ a q. q ≡ from_array_of a };

    fn from(wxyz: [f32; 4]) -> Quaternion {
        let [w, x, y, z] = wxyz;
        Quaternion { w, x, y, z }
    }
}

impl From<Quaternion> for [f32; 4] {
    ghost from_gives = { λ q a. a ≡ to_array_of q };

    fn from(q: Quaternion) -> [f32; 4] {
        [q.w, q.x, q.y, q.z]
    }
}
