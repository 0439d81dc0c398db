//! Laws, each the contract of a function that does nothing.
ghost use Rattle.thy_isa.specs.Laws.{AccessesAreServed, BlocksCross, BlocksMakeTheStep, ConsoleGrows, ConsoleKeepsRoom, CrossedTwice, CrossingKeepsStorable, CursorStaysInside, KeepsHarts, MisalignedIsServed, OneHartSteps, StepKeepsStorable};

/// An instruction that is done over the blocks of memory is a step of the plain machine, whose memory is one flat list of
/// bytes.
pub fn blocks_make_the_step()
    ensures { BlocksMakeTheStep }
{}

/// A step from a state that can be stored reaches one that can be stored; the console only grows, and stays within its
/// room; and the cursor stays inside the input.
pub fn what_a_step_keeps()
    ensures storable { StepKeepsStorable }
    ensures console { ConsoleGrows }
    ensures room { ConsoleKeepsRoom }
    ensures cursor { CursorStaysInside }
{}

/// With one hart no step of a running state ends with the trap of a misaligned load or store; with two harts such a
/// trap comes from atomic instructions only. That such accesses are carried out is part of what a step is.
pub fn misaligned_accesses_are_served()
    ensures alone { MisalignedIsServed }
    ensures accesses { AccessesAreServed }
{}

/// Two exchanges of the harts leave a state as it was. An exchange is the same over blocks and over bytes, and a state that can be stored
/// can be stored with either hart in front.
pub fn crossing_changes_places()
    ensures twice { CrossedTwice }
    ensures blocks { BlocksCross }
    ensures storable { CrossingKeepsStorable }
{}

/// No step adds or removes a hart. With one hart, a step of any hart is a step of that one.
pub fn what_a_step_of_a_hart_is()
    ensures harts { KeepsHarts }
    ensures alone { OneHartSteps }
{}
