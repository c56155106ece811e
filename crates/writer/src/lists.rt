// The lists of a file: a count, and then each item.
ghost use Rattle.std.specs.Prelude.{ℕ, ◌^◌, ◌<◌, List, length};
ghost use Rattle.number.specs.Puts.{Puts, pen_of};
ghost use Rattle.format.specs.Encode.{counted_bytes};
ghost use Rattle.filled.specs.Items.{items_of};
ghost use Rattle.tables.specs.declared.tables.Tables.{Tables as FlatTables};
ghost use Rattle.tables.specs.Spans.{part};

use filled::filled::Filled;
use number::pen::{Pen, Short};
use tables::records::Span;
use tables::tables::Tables;

// An item of a list: which bytes it has in a file, where its own lists lie in the tables.
pub(crate) trait Item: Copy {
    ghost stands: { FlatTables → Self → List ℕ };

    fn put(self, tables: &Tables, pen: &mut Pen) -> Result<(), Short>
        ensures { Puts result (pen_of pen.old) (pen_of pen.new) (stands tables.now self) };
}

// Puts those of the table's items that lie in the span.
pub(crate) fn put_span<T: Item, const N: usize>(
    pen: &mut Pen,
    tables: &Tables,
    table: &Filled<T, N>,
    span: Span,
) -> Result<(), Short>
    requires { N < 2 ^ 32 }
    ensures { Puts result (pen_of pen.old) (pen_of pen.new) (counted_bytes (T.Item.stands tables.now) (part span (items_of table.now))) }
{
    put_items(pen, tables, span.of(table.as_slice()))
}

// Puts the items behind their count.
pub(crate) fn put_items<T: Item>(pen: &mut Pen, tables: &Tables, items: &[T]) -> Result<(), Short>
    requires { length items.now < 2 ^ 32 }
    ensures { Puts result (pen_of pen.old) (pen_of pen.new) (counted_bytes (T.Item.stands tables.now) items.now) }
{
    pen.put_number(items.len() as u32)?;
    for x in items {
        x.put(tables, pen)?;
    }
    Ok(())
}
