// What can be wrong with a number of a file.
ghost use Rattle.std.specs.Prelude.{◌≡◌};
ghost use Rattle.number.specs.Faults.{number_fault_number, number_fault_place};

/// A number that is not read; each variant holds the place where the number began.
#[derive(Clone, Copy, PartialEq, Eq, Debug)]
pub enum NumberFault {
    /// The file ends before the number does.
    Cut(usize),
    /// The number stands in more groups than it needs.
    Padded(usize),
    /// The number is above 4,294,967,295.
    Oversize(usize),
}

impl NumberFault {
    // No `From`: a refusal is not turned into its number, it has one.
    /// The number of the fault: 1 for a cut number, 2 for a padded one, 3 for one that is too great.
    pub fn number(self) -> u8
        ensures { result ≡ number_fault_number self }
    {
        match self {
            NumberFault::Cut(_) => 1,
            NumberFault::Padded(_) => 2,
            NumberFault::Oversize(_) => 3,
        }
    }

    /// The place in the file where the number began.
    pub fn place(self) -> usize
        ensures { result ≡ number_fault_place self }
    {
        match self {
            NumberFault::Cut(place) | NumberFault::Padded(place) | NumberFault::Oversize(place) =>
                place,
        }
    }
}
