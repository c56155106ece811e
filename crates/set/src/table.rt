// Counted items, read one behind the other into a table.
ghost use Rattle.std.specs.Prelude.{◌≡◌, ℕ, ◌+◌, ◌≤◌, List, [], length, take, IfOk};
ghost use Rattle.filled.specs.Items.{items_of};
ghost use Rattle.format.specs.Reading.{Read, counted};
ghost use Rattle.format.specs.Limits.{all_classes};
ghost use Rattle.set.specs.Grown.{Grew};
ghost use Rattle.set.specs.Taken.{Took, Went};

use filled::filled::Filled;
use format::fault::TableFault;
use number::cursor::Cursor;
use tables::records::Span;

// What stands in a file behind a count, each item in the light of those before it, where there are `n` classes in all.
// Cursor and `n` are handed on apart, and each reader asks for the bound of `n`: a struct of both, with the bound in its
// type, is no plainer, since each contract would say that `n` stays.
pub(crate) trait Item: Copy {
    ghost at: { List ℕ → ℕ → List Self → ℕ → Read Self };

    fn read(c: &mut Cursor, n: u32, mine: &[Self]) -> Result<Self, TableFault>
        requires { n ≤ all_classes }
        ensures { Took result c.old c.new (λ file p. at file n mine.now p) };
}

// Reads `count` items behind those of the table.
pub(crate) fn grow<T: Item, const N: usize>(
    c: &mut Cursor,
    n: u32,
    count: usize,
    table: &mut Filled<T, N>,
) -> Result<Span, TableFault>
    requires few { n ≤ all_classes }
    requires room { length (items_of table.old) + count ≤ N }
    ensures front { take (length (items_of table.old)) (items_of table.new) ≡ items_of table.old }
    ensures longer { length (items_of table.old) ≤ length (items_of table.new) }
    ensures size { IfOk result (λ s. s.count ≡ count) }
    ensures went { Went c.old c.new (Grew result (items_of table.old) (items_of table.new)) (λ file p. counted (T.Item.at file n) count [] p) }
{
    let first = table.len();
    for _ in 0..count {
        let item = T::read(c, n, &table.as_slice()[first..])?;
        // there is room
        let _ = table.push(item);
    }
    Ok(Span { first, count })
}
