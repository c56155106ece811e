// A place in a borrowed file, from which numbers are read one after another.
ghost use Rattle.std.specs.Prelude.{◌≡◌, ◌≤◌, true, length, is_err, nat_le, IfOk};
ghost use Rattle.number.specs.Numbers.{number_at, oversize_at, padding_at, Gave};

use crate::fault::NumberFault;
use crate::limits::{GROUP_VALUES, MAX_GROUPS, MORE, TOP_GROUP_VALUES};

/// A file and the place in it up to which it was read.
#[derive(Drop)]
pub struct Cursor<'a> {
    file: &'a [u8],
    place: usize,
    ghost within: { place ≤ length file.now },
}

impl<'a> Cursor<'a> {
    ghost use Rattle.number.specs.Places.{file_of, place_of};

    /// A cursor at the first byte of the file.
    pub fn new(file: &'a [u8]) -> Cursor<'a>
        ensures file { file_of result ≡ file.now }
        ensures place { place_of result ≡ 0 }
    {
        Cursor { file, place: 0 }
    }

    /// How many bytes stand before the cursor.
    pub fn place(&self) -> usize
        ensures { result ≡ place_of self.now }
    {
        self.place
    }

    /// Whether no byte stands behind the cursor.
    pub fn at_end(&self) -> bool
        ensures { result ≡ nat_le (length (file_of self.now)) (place_of self.now) }
    {
        self.file.len() <= self.place
    }

    /// Reads the number that begins here and moves behind it.
    ///
    /// Refuses a number that the file's end cuts (1), that stands in more groups than it needs (2) or that is
    /// above 4,294,967,295 (3), at the place where the number began; the cursor then stays there.
    pub fn number(&mut self) -> Result<u32, NumberFault>
        ensures file { file_of self.new ≡ file_of self.old }
        ensures gave { Gave result (place_of self.new) (number_at (file_of self.old) (place_of self.old)) }
        ensures stays { is_err result ≡ true → place_of self.new ≡ place_of self.old }
    {
        let (value, place) = number_from(self.file, self.place)?;
        self.place = place;
        Ok(value)
    }
}

// The number that begins at `start`, and the place behind it.
fn number_from(file: &[u8], start: usize) -> Result<(u32, usize), NumberFault>
    requires { start ≤ length file.now }
    ensures number { result ≡ number_at file.now start }
    ensures within { IfOk result (λ r. r.1 ≤ length file.now) }
{
    let rest = &file[start..];
    let mut value: u32 = 0;
    let mut scale: u32 = 1;
    for (group, &b) in rest.iter().enumerate() {
        if oversized(group, b) {
            return Err(NumberFault::Oversize(start));
        }
        if b < MORE {
            if padding(group, b) {
                return Err(NumberFault::Padded(start));
            }
            return Ok((value + scale * u32::from(b), start + group + 1));
        }
        value += scale * u32::from(b - MORE);
        scale *= GROUP_VALUES;
    }
    Err(NumberFault::Cut(start))
}

// Whether the byte `b`, with `group` groups before it, says more than the bits that are left of 32.
fn oversized(group: usize, b: u8) -> bool
    ensures { result ≡ oversize_at group b }
{
    group == MAX_GROUPS - 1 && b >= TOP_GROUP_VALUES
}

// Whether a last byte `b`, with `group` groups before it, could be left out.
fn padding(group: usize, b: u8) -> bool
    ensures { result ≡ padding_at group b }
{
    group > 0 && b == 0
}
