// Whole numbers of 32 bits as the Rust has them: `as` between them and floats, saturating sums, and a clamp that never panics.
ghost use Rattle.std.specs.Prelude.{◌≡◌, ◌+ℤ◌, ◌-ℤ◌};
ghost use Rattle.std.specs.Float.{binary32};
ghost use Rattle.std.specs.Float.Ieee.{to_unsigned, to_signed, of_int};
ghost use Rattle.number.specs.Whole.{saturated_of, clamp_of};

// The Rust's `x as u32`: cut toward zero, below 0 and a NaN giving 0, above the range giving its largest.
pub fn to_u32(x: f32) -> u32
    ensures { result ≡ to_unsigned 32 x }
{
    std::num::saturating_f32_to_u32(x)
}

// The Rust's `x as i32`: cut toward zero, the nearest end where it is out of the range, and 0 for a NaN.
pub fn to_i32(x: f32) -> i32
    ensures { result ≡ to_signed 31 x }
{
    std::num::saturating_f32_to_i32(x)
}

// The Rust's `n as f32`: the nearest float, ties to even.
pub fn from_i32(n: i32) -> f32
    ensures { result ≡ of_int binary32 n }
{
    std::num::nearest_i32_to_f32(n)
}

#[tactic(auto, unfolding(crate::specs::Whole::saturated_of))]
pub fn saturating_add(a: i32, b: i32) -> i32
    ensures { result ≡ saturated_of (a +ℤ b) }
{
    a.saturating_add(b)
}

#[tactic(auto, unfolding(crate::specs::Whole::saturated_of))]
pub fn saturating_sub(a: i32, b: i32) -> i32
    ensures { result ≡ saturated_of (a -ℤ b) }
{
    a.saturating_sub(b)
}

// The lower end where the value is below it, else the upper where it is above that, even where the ends are crossed: the library's clamp
// asks that they are not.
#[tactic(auto, unfolding(crate::specs::Whole::clamp_of))]
pub fn clamp(value: i32, min: i32, max: i32) -> i32
    ensures { result ≡ clamp_of value min max }
{
    if value < min {
        return min;
    }
    if value > max {
        return max;
    }
    value
}
