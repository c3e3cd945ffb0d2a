//! Lock programs in the words of their language: states and their codes, the step rule, and the system that a program
//! means.
#![tactic(auto)]

ghost use Rattle.step_rule.specs.Claims.{EveryCodeIsOneState, CommandsFollowTheRule, ProgramsMeanLawfulSystems, RemaindersAreLeast, LeafExamples};

/// Codes and states are one to one.
pub fn codes_are_one_to_one()
    ensures { EveryCodeIsOneState }
{}

/// Commands lead where the step rule says.
pub fn commands_follow_the_rule()
    ensures { CommandsFollowTheRule }
{}

/// A well-formed program means a lawful system.
pub fn programs_mean_lawful_systems()
    ensures { ProgramsMeanLawfulSystems }
{}

/// What is assigned is the one remainder from 0 to the maximum.
pub fn remainders_are_least()
    ensures { RemaindersAreLeast }
{}

/// By a maximum of 3, 3 - 5 is assigned as 2; `not 2 == 1` is 1.
pub fn leaf_examples_hold()
    ensures { LeafExamples }
{}
