// A set of axes.
ghost use Rattle.std.specs.Prelude.{◌≡◌};
ghost use Rattle.settings.specs.Axes.{any_of};

#[derive(Clone, Copy, Debug, PartialEq, Eq)]
pub struct Axes {
    pub x: bool,
    pub y: bool,
    pub z: bool,
}

impl Axes {
    pub const NONE: Axes = Axes {
        x: false,
        y: false,
        z: false,
    };

    // Whether it is not none.
    pub fn any(self) -> bool
        ensures { result ≡ any_of self }
    {
        self.x | self.y | self.z
    }
}
