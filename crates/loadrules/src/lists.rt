// Lists as a person reads them.
ghost use Rattle.std.specs.Iterator.{IsFinite};

use std::fmt;

/// Writes the items, with `between` before all but the first.
pub fn write_list<W: fmt::Write, I: Iterator + Drop>(
    f: &mut fmt::Formatter<W>,
    between: &str,
    items: I,
) -> fmt::Result
where
    I::Item: fmt::Display + Drop,
    requires can { I.can_next items }
    requires ends { IsFinite (I.remaining items) }
{
    let mut first = true;
    for item in items {
        if !first {
            write!(f, "{between}")?;
        }
        write!(f, "{item}")?;
        first = false;
    }
    Ok(())
}
