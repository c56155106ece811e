// Why a history is not performed.
ghost use Rattle.std.specs.Prelude.{◌≡◌};
ghost use Rattle.machine.specs.Shorts.{short_number};

/// There are fewer places for replies than calls. The heap is handed back as it was.
pub struct Short<H> {
    pub heap: H,
}

impl<H> Short<H> {
    /// The refusal's number.
    pub fn number(&self) -> u8
        ensures { result ≡ short_number }
    {
        10
    }
}
