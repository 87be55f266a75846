// A 3 by 3 matrix of f32, rows first: the Rust's math/matrix.rs. A field's name is its row and then its column.
ghost use Rattle.std.specs.Prelude.{◌≡◌};
ghost use Rattle.math.specs.Matrices.{identity_matrix, from_rows_of, to_rows_of, transpose_of, mul_of, mul_vector_of};

use vector::Vector;

#[derive(Clone, Copy, Debug, PartialEq)]
pub struct Matrix {
    pub xx: f32,
    pub xy: f32,
    pub xz: f32,
    pub yx: f32,
    pub yy: f32,
    pub yz: f32,
    pub zx: f32,
    pub zy: f32,
    pub zz: f32,
}

impl Matrix {
    pub const IDENTITY: Matrix = Matrix {
        xx: 1.0,
        xy: 0.0,
        xz: 0.0,
        yx: 0.0,
        yy: 1.0,
        yz: 0.0,
        zx: 0.0,
        zy: 0.0,
        zz: 1.0,
    };

    // No other function gives the constant, so that its value is promised here.
    pub fn identity() -> Matrix
        ensures { result ≡ identity_matrix }
    {
        Matrix::IDENTITY
    }

    pub fn transpose(self) -> Matrix
        ensures { result ≡ transpose_of self }
    {
        Matrix {
            xx: self.xx,
            xy: self.yx,
            xz: self.zx,
            yx: self.xy,
            yy: self.yy,
            yz: self.zy,
            zx: self.xz,
            zy: self.yz,
            zz: self.zz,
        }
    }

    // Each element times s.
    pub fn mul(self, s: f32) -> Matrix
        ensures { result ≡ mul_of self s }
    {
        Matrix {
            xx: self.xx * s,
            xy: self.xy * s,
            xz: self.xz * s,
            yx: self.yx * s,
            yy: self.yy * s,
            yz: self.yz * s,
            zx: self.zx * s,
            zy: self.zy * s,
            zz: self.zz * s,
        }
    }

    pub fn mul_vector(self, v: Vector) -> Vector
        ensures { result ≡ mul_vector_of self v }
    {
        Vector {
            x: self.xx * v.x + self.xy * v.y + self.xz * v.z,
            y: self.yx * v.x + self.yy * v.y + self.yz * v.z,
            z: self.zx * v.x + self.zy * v.y + self.zz * v.z,
        }
    }
}

impl From<[[f32; 3]; 3]> for Matrix {
    ghost from_gives = { λ rows m. m ≡ from_rows_of rows };

    fn from(rows: [[f32; 3]; 3]) -> Matrix {
        let [x, y, z] = rows;
        Matrix {
            xx: x[0],
            xy: x[1],
            xz: x[2],
            yx: y[0],
            yy: y[1],
            yz: y[2],
            zx: z[0],
            zy: z[1],
            zz: z[2],
        }
    }
}

impl From<Matrix> for [[f32; 3]; 3] {
    ghost from_gives = { λ m rows. rows ≡ to_rows_of m };

    fn from(m: Matrix) -> [[f32; 3]; 3] {
        [[m.xx, m.xy, m.xz], [m.yx, m.yy, m.yz], [m.zx, m.zy, m.zz]]
    }
}
