// What is known of the height of a stack, and the number of a row that shows it.
ghost use Rattle.std.specs.Prelude.{◌≡◌};
ghost use Rattle.walk_heights.specs.Heights.{joined, number_of, read_number};

/// The greatest height.
pub const HIGHEST: u8 = 16;

/// The number after that of the greatest height.
const CLASH: u16 = HIGHEST as u16 + 2;

/// How high the stack is on the paths that lead to a step.
#[derive(Clone, Copy, PartialEq, Eq, Debug)]
pub enum Height {
    /// No path leads there.
    Unreached,
    /// One height on all paths.
    Tall(u8),
    /// Different heights.
    Clash,
}

impl Height {
    /// What is known on the paths of both.
    pub fn join(self, other: Height) -> Height
        ensures { result ≡ joined self other }
    {
        match (self, other) {
            (Height::Unreached, _) => other,
            (_, Height::Unreached) => self,
            (Height::Tall(a), Height::Tall(b)) if a == b => self,
            _ => Height::Clash,
        }
    }
}

impl From<Height> for u16 {
    ghost from_gives = { λ h n. n ≡ number_of h };

    fn from(h: Height) -> u16 {
        match h {
            Height::Unreached => 0,
            Height::Tall(h) => 1 + u16::from(h),
            Height::Clash => CLASH,
        }
    }
}

// A number above those of the heights shows a clash.
impl From<u16> for Height {
    ghost from_gives = { λ n h. h ≡ read_number n };

    fn from(n: u16) -> Height {
        match n {
            0 => Height::Unreached,
            1..CLASH => Height::Tall((n - 1) as u8),
            _ => Height::Clash,
        }
    }
}
