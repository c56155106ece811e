// Loading: a file is read, and the set is verified.
ghost use Rattle.std.specs.Result.{MatchResult};
ghost use Rattle.verifier.specs.Loading.{Loads, NotLoaded};

use crate::accepted::Accepted;
use crate::load_fault::LoadFault;
use crate::verify::verify;
use set::reader::read;
use set::set::Set;

/// Reads the file into the set and verifies the set in the workspace; `place` holds it where it is accepted.
///
/// Refuses what reading refuses (1 to 9), which leaves the set of no own classes, and the workspace and `place` as they
/// were; and what verifying refuses (10 and 11), which leaves the set as it was read.
pub fn load(
    file: &[u8],
    set: &mut Set,
    workspace: &mut [u16],
    place: &mut Accepted,
) -> Result<(), LoadFault>
    ensures { MatchResult result (λ _. Loads file.now set.new workspace.old workspace.new place.new) (λ e. NotLoaded e file.now set.new workspace.old workspace.new place.old place.new) }
{
    read(file, set)?;
    verify(set, workspace, place)?;
    Ok(())
}
