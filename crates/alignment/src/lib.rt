// The mounting as a matrix of 0, 1 and -1, a row for each body axis, and a vector turned by the ported product with it.
#![tactic(auto)]

ghost use Rattle.std.specs.Prelude.{◌≡◌};
ghost use Rattle.answer.specs.Promises.{Answers};
ghost use Rattle.vector.specs.Turned.{turn_checks, turned_answer};
ghost use Rattle.alignment.specs.Inner.{matrix_by, Placed};
ghost use Rattle.alignment.specs.Matrix.{to_matrix_of, rotate_of, matrix_checks, Gives};

use answer::{Answer, Refusal};
use math::Matrix;
use remap::Mounting;
use vector::Vector;

// The matrix by what each body axis reads; its places are packed, for less flash. The row of each signed axis stands at its place: X, Y,
// Z, and their negatives.
fn matrix_by(axes: u16) -> Matrix
    requires { Placed axes }
    ensures { result ≡ matrix_by axes }
{
    let rows = [
        [1.0, 0.0, 0.0],
        [0.0, 1.0, 0.0],
        [0.0, 0.0, 1.0],
        [-1.0, 0.0, 0.0],
        [0.0, -1.0, 0.0],
        [0.0, 0.0, -1.0],
    ];
    let x = (axes / 1024) as usize;
    let y = (axes / 32 % 32) as usize;
    let z = (axes % 32) as usize;
    Matrix::from([rows[x], rows[y], rows[z]])
}

// The matrix of a mounting: refused with 4 for a number above 23.
pub fn to_matrix(mounting: u8) -> Result<Matrix, Refusal>
    ensures { Gives (matrix_checks mounting) (to_matrix_of mounting) result }
{
    let mounting = Mounting::try_from(mounting)?;
    Ok(matrix_by(mounting.axes()))
}

// A sensor's vector in body axes, by the matrix: refused with 4 for a number above 23, then with 5 for a vector that is not finite. It
// is what `remap` gives but for the sign of a zero: the product rounds nothing, so that there is no case of 7.
pub fn rotate(sensor: Vector, mounting: u8) -> Answer
    ensures { Answers (turn_checks sensor mounting) (turned_answer (rotate_of mounting sensor)) result }
{
    let mounting = match Mounting::try_from(mounting) {
        Ok(mounting) => mounting,
        Err(refusal) => return Answer::Refused(refusal),
    };
    if !sensor.is_finite() {
        return Answer::Refused(Refusal::NotFinite);
    }
    let body = matrix_by(mounting.axes()).mul_vector(sensor);
    Answer::Turned(body.x, body.y, body.z)
}
