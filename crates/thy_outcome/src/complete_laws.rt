//! The law of complete answers, as the contract of a function that does nothing.
ghost use Rattle.thy_outcome.specs.Answering.{nvm_of};
ghost use Rattle.thy_outcome.specs.Machines.{by_scheme};
ghost use Rattle.thy_outcome.specs.Laws.{AnsweredCompareCompletes, AnsweredMakeCompletes, AnsweredPairCompletes, AnsweredPlainCompletes, AnsweredRunCompletes};

use thy_base::Nvm;
use thy_computer::Computer;

/// What is answered is complete, whatever machine each scheme has. In a call in which nothing fails, a program that ends
/// within the limit gives the status of this end, unless memory ran out.
pub fn what_is_answered_is_complete<A: Computer, B: Computer, C: Computer, N: Nvm>()
    ensures run { AnsweredRunCompletes (by_scheme A.kind B.kind C.kind) (nvm_of N.device) }
    ensures pair { AnsweredPairCompletes (by_scheme A.kind B.kind C.kind) (nvm_of N.device) }
    ensures compared { AnsweredCompareCompletes (by_scheme A.kind B.kind C.kind) (nvm_of N.device) }
    ensures plain { AnsweredPlainCompletes (by_scheme A.kind B.kind C.kind) (nvm_of N.device) }
    ensures made { AnsweredMakeCompletes (by_scheme A.kind B.kind C.kind) (nvm_of N.device) }
{}
