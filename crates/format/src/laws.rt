// The laws of files, each carried by the contract of a function that does nothing.
ghost use Rattle.format.specs.Laws.{WrittenIsRead, ReadWasWritten, WrittenInBytes, FilesAreEncodings, OneProgram, KeptIsWellFormed};
ghost use Rattle.format.specs.Laws.{PlacesWithin, FaultsAreFirst, FaultsStay, BeginningsAreCut};
ghost use Rattle.format.specs.Examples.{ExamplesStand};

/// Files stand: what was written is read, what is read was written, and a program that keeps the rules has an encoding
/// of its own, in bytes.
pub fn files_stand()
    ensures written { WrittenIsRead }
    ensures read { ReadWasWritten }
    ensures bytes { WrittenInBytes }
    ensures exactly { FilesAreEncodings }
    ensures one { OneProgram }
    ensures formed { KeptIsWellFormed }
{}

/// Faults come in file order: each stands in the file or right behind it, and the bytes up to the number at its place
/// settle it; one that is no cut stays whatever is added behind the file, and an encoding that breaks off is cut.
pub fn faults_in_order()
    ensures places { PlacesWithin }
    ensures first { FaultsAreFirst }
    ensures stay { FaultsStay }
    ensures cut { BeginningsAreCut }
{}

/// The worked files say what they are said to say: one for each fault, and two that are read.
pub fn examples_stand()
    ensures examples { ExamplesStand }
{}
