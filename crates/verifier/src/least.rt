// The least well-typing of a method, written into a workspace.
ghost use Rattle.std.specs.Prelude.{◌≡◌, ◌*◌, ◌≤◌, length, take, MatchResult};
ghost use Rattle.walk.specs.Framework.{nodes};
ghost use Rattle.walk.specs.Limits.{width};
ghost use Rattle.walk.specs.Rows.{table, Room};
ghost use Rattle.type_rows.specs.Frameworks.{method_framework};
ghost use Rattle.type_rows.specs.Typings.{rows_of};
ghost use Rattle.verifier.specs.Accepted.{accepted_program};
ghost use Rattle.verifier.specs.LeastTables.{table_numbers, HasMethod, TableWritten, LeastWritten, NotWritten};
ghost use Rattle.verifier.specs.Limits.{workspace_length};

use crate::accepted::Accepted;
use crate::fault::LeastTableFault;
use jinja::program::{ClassNumber, Name};
use type_rows::method::Method;
use type_rows::row::clear_from;
use walk::{Analysis, WIDTH, WORKSPACE, walk};

/// Writes the least well-typing of the method that the class sees under the name: for each instruction 0 or 1 + the
/// height, 16 stack cells with the bottom first, and 16 registers. What is absent or unusable is 255, and so is the rest
/// of the workspace.
///
/// Refuses a workspace of fewer than 8,448 numbers (10), and then a class that there is not or a name that it does not
/// see (13). A refusal leaves the workspace as it was.
pub fn least_table(
    accepted: &Accepted,
    class: ClassNumber,
    name: Name,
    workspace: &mut [u16],
) -> Result<(), LeastTableFault>
    ensures { MatchResult result (λ _. LeastWritten (accepted_program accepted.now) class name workspace.old workspace.new) (λ e. NotWritten e (accepted_program accepted.now) class name workspace.old workspace.new) }
{
    if workspace.len() < WORKSPACE {
        return Err(LeastTableFault::Short);
    }
    let seen = accepted.set().tables().sees(class, name);
    write_least(accepted, seen.ok_or(LeastTableFault::Unseen)?, workspace);
    Ok(())
}

// Writes the least well-typing of the method of number `k`, which there is.
fn write_least(accepted: &Accepted, k: usize, workspace: &mut [u16])
    requires there { HasMethod (accepted_program accepted.now) k }
    requires room { workspace_length ≤ length workspace.old }
    ensures { TableWritten (accepted_program accepted.now) k workspace.old workspace.new }
{
    if let Some(method) = Method::of(accepted.set(), k) {
        // There is a solution, since the set is accepted.
        let _solved = walk(&method, workspace);
        hand_out_rows(&method, workspace);
        clear_from(workspace, method.count() * WIDTH);
    }
}

// Makes every number of the rows absent that they do not show.
fn hand_out_rows(method: &Method, workspace: &mut [u16])
    requires { Room (method_framework method.now) workspace.old }
    ensures { take (nodes (method_framework method.now) * width) workspace.new ≡ table_numbers (rows_of (table (method_framework method.now) workspace.old)) (nodes (method_framework method.now)) }
{
    // Kept, tried by `chunks_exact_mut`: after such a loop nothing is known of the workspace but its length.
    for i in 0..method.count() {
        let from = i * WIDTH;
        method.hand_out(&mut workspace[from..from + WIDTH]);
    }
}
