//! The grammar of whole lock texts, their reading from a stream of tokens, and what the two have to do with each other.
#![tactic(auto)]

ghost use Rattle.lock_grammar.specs.Laws.{SoundTexts, CompleteTexts, OneProgram, WellFormedPrograms, LawfulSystems, FirstFaultOfTexts, FirstFaultByBytes, ReadExactly, NamesAreFound};
ghost use Rattle.lock_grammar.specs.Examples.{RefusalExamples, ReadExamples};

/// What is read as a program means it by the grammar.
pub fn texts_are_read_soundly()
    ensures { SoundTexts }
{}

/// What means a program by the grammar is read as it.
pub fn texts_are_read_completely()
    ensures { CompleteTexts }
{}

/// The same tokens are one program.
pub fn programs_are_one()
    ensures { OneProgram }
{}

/// The program of a text is well formed, and means a lawful system.
pub fn programs_of_texts_are_lawful()
    ensures formed { WellFormedPrograms }
    ensures lawful { LawfulSystems }
{}

/// Past a refused token no text, however it goes on, means a program.
pub fn first_fault_of_texts_decides()
    ensures tokens { FirstFaultOfTexts }
    ensures bytes { FirstFaultByBytes }
{}

/// A text is read as a program exactly when its tokens are that program by the grammar.
pub fn texts_are_read_exactly()
    ensures { ReadExactly }
{}

/// A text for each cause of a refusal, and two locks that are read.
pub fn example_texts_are_answered()
    ensures refusals { RefusalExamples }
    ensures locks { ReadExamples }
{}

/// Names are found where they stand.
pub fn names_are_found()
    ensures { NamesAreFound }
{}
