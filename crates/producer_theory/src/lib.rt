//! What the producer's evidence is, in the words of graphs and runs, and what it shows. Lemmas only.
#![tactic(auto)]

ghost use Rattle.producer_theory.specs.Claims.{ProducedIsAccepted, ProducedIsOne, RightRowsKeepOutLockout, RoundLocksOut, NoneSuitsLocksOut, ClashIsNear, SoundIsCorrect, CertifiedExactlyWhenCorrect, NeverBoth};

/// Where no clash is reachable the produced certificate meets the rank rule.
pub fn produced_is_accepted()
    ensures { ProducedIsAccepted }
{}

/// There is one produced certificate at most.
pub fn produced_is_one()
    ensures { ProducedIsOne }
{}

/// Where no class suits a component of its waiting graph, a process can be locked out by a run of at most (J + 2) × N
/// steps.
pub fn none_suits_locks_out()
    ensures { NoneSuitsLocksOut }
{}

/// A reachable clash is come to in fewer than N steps.
pub fn clash_is_near()
    ensures { ClashIsNear }
{}

/// The right rows of one process keep every just run from leaving it trying for ever.
pub fn right_rows_keep_out_lockout()
    ensures { RightRowsKeepOutLockout }
{}

/// A round of a component of the waiting graph that treats each class justly, after a walk to it, is a lockout.
pub fn round_locks_out()
    ensures { RoundLocksOut }
{}

/// Where the producer's cases are told apart, being sound is the same as having both properties of a correct lock.
pub fn sound_is_correct()
    ensures { SoundIsCorrect }
{}

/// There, some certificate meets the rule exactly when the lock is correct, and else there is a bad run.
pub fn certified_exactly_when_correct()
    ensures { CertifiedExactlyWhenCorrect }
{}

/// No lock has both a certificate that meets the rule and a bad run.
pub fn never_both()
    ensures { NeverBoth }
{}
