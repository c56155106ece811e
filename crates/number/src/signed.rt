// Signed numbers as numbers: 2z for z from 0 on, and -2z - 1 below 0. No From: both types are std's, and a newtype would
// be unwrapped again at each use.
ghost use Rattle.std.specs.Prelude.{◌≡◌};
ghost use Rattle.number.specs.Signed.{signed, unsigned};

/// The signed number that `n` stands for.
pub fn to_signed(n: u32) -> i32
    ensures { result ≡ signed n }
{
    let half = (n / 2) as i32;
    if n % 2 == 0 { half } else { -1 - half }
}

/// The number that stands for `z`.
pub fn from_signed(z: i32) -> u32
    ensures { result ≡ unsigned z }
{
    if z >= 0 {
        2 * (z as u32)
    } else {
        2 * ((-1 - z) as u32) + 1
    }
}
