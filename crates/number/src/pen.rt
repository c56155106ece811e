// A pen that puts bytes and numbers into a slice, one behind the other.
ghost use Rattle.std.specs.Prelude.{◌≡◌, ◌+◌, ◌%◌, [], ◌∷◌};
ghost use Rattle.number.specs.Numbers.{bytes};
ghost use Rattle.number.specs.Puts.{Puts, pen_of};

use crate::limits::{GROUP_VALUES, MORE};

/// The slice has no room for what was to be put.
#[derive(Clone, Copy, PartialEq, Eq, Debug)]
pub struct Short;

/// Puts bytes into a slice from its first byte on; a dry pen counts them and changes nothing.
// One type for both: over two, each function that puts would be generic, with the same clauses.
#[derive(Drop)]
pub struct Pen<'a> {
    out: &'a mut [u8],
    place: usize,
    dry: bool,
}

impl<'a> Pen<'a> {
    /// A pen at the first byte of `out`, dry or not.
    pub fn new(out: &'a mut [u8], dry: bool) -> Pen<'a>
        ensures out { (pen_of result).out ≡ out.old }
        ensures place { (pen_of result).place ≡ 0 }
        ensures dry { (pen_of result).dry ≡ dry }
        ensures slice { (pen_of result).slice ≡ out.entry.ghost_name }
    {
        Pen { out, place: 0, dry }
    }
}

impl Pen<'_> {
    /// How many bytes were put.
    pub fn place(&self) -> usize
        ensures { result ≡ (pen_of self.now).place }
    {
        self.place
    }

    // Puts one byte; refuses at the end of the slice, and then changes nothing.
    fn put(&mut self, b: u8) -> Result<(), Short>
        ensures { Puts result (pen_of self.old) (pen_of self.new) (b ∷ []) }
    {
        if self.place >= self.out.len() {
            return Err(Short);
        }
        if !self.dry {
            self.out[self.place] = b;
        }
        self.place += 1;
        Ok(())
    }

    /// Puts the bytes of `n`; refuses where the slice is too short for them, and then those that have room are put.
    pub fn put_number(&mut self, n: u32) -> Result<(), Short>
        ensures { Puts result (pen_of self.old) (pen_of self.new) (bytes n) }
    {
        let mut rest = n;
        while rest >= GROUP_VALUES {
            self.put(lowest_group(rest))?;
            rest /= GROUP_VALUES;
        }
        self.put(rest as u8)
    }
}

// The byte of the lowest group of `n`, with more groups behind it.
fn lowest_group(n: u32) -> u8
    ensures { result ≡ n % 128 + 128 }
{
    (n % GROUP_VALUES) as u8 + MORE
}
