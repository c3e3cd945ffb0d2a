//! What the grammar and the reading have to do with each other.
ghost use Rattle.expression_grammar.specs.Laws.{SoundReading, CompleteReading, OneTree, FirstFault};

/// What is read is an expression by the grammar, within the limits.
pub fn reading_is_sound()
    ensures { SoundReading }
{}

/// What is an expression by the grammar, within the limits, is read as that tree.
pub fn reading_is_complete()
    ensures { CompleteReading }
{}

/// Within the limits the same tokens are one tree.
pub fn trees_are_one()
    ensures { OneTree }
{}

/// Past a refused token no text, however it goes on, begins with an expression within the limits.
pub fn first_fault_decides()
    ensures { FirstFault }
{}
