//! Theorems on systems, each the contract of a function.
#![tactic(auto)]

ghost use Rattle.system.specs.Masks.{PilesAreUnions, HighBitsDoNothing};
ghost use Rattle.system_laws.specs.Holding.{ClashIsTwoHolders};
ghost use Rattle.system_laws.specs.Passing.{WalksExtendToRuns, ReachableIsPassedThrough, ClashFreeByStates};
ghost use Rattle.system_laws.specs.Masking.{MaskedRunsTakeNoMaskedCommand, MaskedClasses, JusticeCarriesUp, ClasslessMasksKeepJustice, JustOnlyUnderMask, MaskSpoils, MasksBringNoClash};

/// A state is a clash exactly when two different processes hold in it.
pub fn clash_is_two_holders()
    ensures { ClashIsTwoHolders }
{}

/// Every walk from the start is the beginning of a run, since rest is always possible.
pub fn walks_extend_to_runs()
    ensures { WalksExtendToRuns }
{}

/// A state is reachable exactly when some run passes through it.
pub fn reachable_is_passed_through()
    ensures { ReachableIsPassedThrough }
{}

/// No run reaches a clash exactly when no reachable state is one.
pub fn clash_free_by_states()
    ensures { ClashFreeByStates }
{}

/// Two masks in a pile mean their union.
pub fn piles_are_unions()
    ensures { PilesAreUnions }
{}

/// Masks that agree on the commands of a system mean the same over it.
pub fn high_bits_do_nothing()
    ensures { HighBitsDoNothing }
{}

/// The runs of a masked system are exactly the runs below that take no masked command.
pub fn masked_runs_take_no_masked_command()
    ensures { MaskedRunsTakeNoMaskedCommand }
{}

/// A class is enabled under a mask exactly when some command of it is that the mask leaves.
pub fn masked_classes()
    ensures { MaskedClasses }
{}

/// A run that is just below is just under the mask.
pub fn justice_carries_up()
    ensures { JusticeCarriesUp }
{}

/// Where no masked command has a class, justice is the same on both sides.
pub fn classless_masks_keep_justice()
    ensures { ClasslessMasksKeepJustice }
{}

/// Elsewhere a run may be just under a mask and not just below.
pub fn justice_need_not_carry_down()
    ensures { JustOnlyUnderMask }
{}

/// A mask can spoil a correct lock.
pub fn a_mask_can_spoil_a_lock()
    ensures { MaskSpoils }
{}

/// No mask brings a clash.
pub fn masks_bring_no_clash()
    ensures { MasksBringNoClash }
{}
