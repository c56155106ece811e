// Whether an instruction's edges stay in the code.
ghost use Rattle.std.specs.Prelude.{◌≡◌, List};
ghost use Rattle.jinja.specs.declared.ty.Ty.{Ty};
ghost use Rattle.jinja.specs.Rows.{Cell};
ghost use Rattle.type_rows.specs.Leading.{leads};
ghost use Rattle.type_rows.specs.MethodFlow.{all_inside};

use crate::leads::Leads;
use crate::site::Site;

/// Whether every successor lies before the end.
pub(crate) fn stays_inside(to: Leads, site: Site, end: usize) -> bool
    ensures { (st : List Ty) (lt : List Cell) → result ≡ all_inside end (leads to site.pc st lt) }
{
    match to {
        Leads::Nowhere => true,
        Leads::Next => site.pc + 1 < end,
        Leads::To(q) => q < end,
        Leads::Either(q) => site.pc + 1 < end && q < end,
    }
}
