//! The rank rule for certificates, and what it shows of a lock.
#![tactic(auto)]

ghost use Rattle.rank_rule.specs.Claims.{CertifiedIsCorrect, RankRuleIsSound, RowsKeepOutLockout, NeverBoth};

use rank::Rank;

/// For every kind of rank with its laws and every lawful system: a certificate that meets the rule shows that no run
/// reaches a clash and that no just run leaves a process trying for ever.
pub fn rank_rule_is_sound()
    ensures { RankRuleIsSound }
{}

/// The same for the kind of each rank type.
pub fn certified_is_correct<R: Rank>()
    ensures { CertifiedIsCorrect R.kind }
{}

/// The rows of one process alone keep every just run from leaving it trying for ever.
pub fn rows_keep_out_lockout<R: Rank>()
    ensures { RowsKeepOutLockout R.kind }
{}

/// For one lawful system a certificate that meets the rule, of any kind with its laws, and a bad run are never both
/// there.
pub fn never_both()
    ensures { NeverBoth }
{}
