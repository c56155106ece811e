// The laws of numbers, carried by the contract of a function that does nothing.
ghost use Rattle.number.specs.Laws.{WrittenIsRead, ReadWasWritten, ReadStands, StandingIsRead, RefusedIsWrong, SignsStand};

/// Numbers stand: what was put is read, whatever stands before and behind, and what is read was put; a number is
/// read exactly where it stands in its shortest form, and what is refused is wrong as the fault says; signed
/// numbers and numbers stand for one another.
pub fn numbers_stand()
    ensures written { WrittenIsRead }
    ensures read { ReadWasWritten }
    ensures stands { ReadStands }
    ensures standing { StandingIsRead }
    ensures refused { RefusedIsWrong }
    ensures signs { SignsStand }
{}
