// A method as an analysis of the walk: the rows are type rows.
ghost use Rattle.type_rows.specs.Frameworks.{method_framework};

use crate::method::Method;
use walk::{Analysis, WIDTH};

impl<'a> Analysis for Method<'a> {
    ghost framework = { method_framework };

    fn count(&self) -> usize {
        self.count()
    }

    fn bottom(&self, out: &mut [u16; WIDTH]) {
        self.bottom(out);
    }

    fn start(&self, out: &mut [u16; WIDTH]) {
        self.start(out);
    }

    fn join(&self, row: &mut [u16], other: &[u16]) -> bool {
        self.join_rows(row, other)
    }

    fn refuses(&self, i: usize, row: &[u16]) -> bool {
        self.refuses(i, row)
    }

    fn edges(&self, _i: usize) -> usize {
        self.edges()
    }

    fn send(&self, i: usize, e: usize, row: &[u16], out: &mut [u16; WIDTH]) -> Option<usize> {
        self.send(i, e, row, out)
    }
}
