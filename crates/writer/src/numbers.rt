// Small numbers, and several numbers one behind the other.
ghost use Rattle.number.specs.Numbers.{bytes};
ghost use Rattle.number.specs.Puts.{Puts, pen_of};
ghost use Rattle.writer.specs.Numbers.{in_a_row};

use number::pen::{Pen, Short};

pub(crate) fn put_u8(pen: &mut Pen, n: u8) -> Result<(), Short>
    ensures { Puts result (pen_of pen.old) (pen_of pen.new) (bytes n) }
{
    pen.put_number(u32::from(n))
}

pub(crate) fn put_numbers(pen: &mut Pen, numbers: &[u32]) -> Result<(), Short>
    ensures { Puts result (pen_of pen.old) (pen_of pen.new) (in_a_row numbers.now) }
{
    for n in numbers {
        pen.put_number(*n)?;
    }
    Ok(())
}
