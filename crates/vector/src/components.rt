// What a vector and a quaternion have in common: both are a few floats, whose squares sum to the square of the norm. Of what each has under
// the same name but works out by its own components, nothing generic is called, so the rest stays beside it.
ghost use Rattle.std.specs.Prelude.{◌≡◌, Float};
ghost use Rattle.root.specs.Root.{sqrt_of};

pub trait Components: Copy {
    ghost summed: { Self → Float };

    ghost multiplied: { Self → Self → Self };

    ghost squared: { Self → Float };

    ghost length: { Self → Float };

    fn sum(self) -> f32
        ensures { result ≡ summed self };

    // The products of the components at the same places.
    fn hadamard(self, rhs: Self) -> Self
        ensures { result ≡ multiplied self rhs };

    ghost is_squared: { (v : Self) → squared v ≡ summed (multiplied v v) };

    ghost is_length: { (v : Self) → length v ≡ sqrt_of (squared v) };

    final fn norm_squared(self) -> f32
        ensures { result ≡ squared self }
    {
        self.hadamard(self).sum()
    }

    final fn norm(self) -> f32
        ensures { result ≡ length self }
    {
        root::sqrtf(self.norm_squared())
    }
}
