ghost use Rattle.std.specs.Prelude.{◌≡◌};
ghost use Rattle.x86_types.specs.Numbers.{size_of};

/// How many bytes an operand has: one, two or four. Intel SDM volume 2, section 3.1.1.3
/// ("r8", "r16", "r32").
#[derive(Clone, Copy, Debug, PartialEq, Eq)]
pub enum Width {
    One,
    Two,
    Four,
}

impl Width {
    /// The number of bytes.
    pub fn size(self) -> u8
        ensures size { result ≡ size_of self }
    {
        match self {
            Width::One => 1,
            Width::Two => 2,
            Width::Four => 4,
        }
    }
}
