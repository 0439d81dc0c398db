//! Laws of made programs, each the contract of a function that does nothing.
ghost use Rattle.thy_elf.specs.MadeLaws.{FilesAreImages, FilesHaveOneLength, ProgramsHaveOneLength, ProgramsLoop, StoresAreInReach, WordsMeanTheProgram};

/// Every program has 6007 instructions, and its file 24,148 bytes.
pub fn made_files_are_long()
    ensures program { ProgramsHaveOneLength }
    ensures file { FilesHaveOneLength }
{}

/// The jump of every program goes back to its first store.
pub fn made_programs_loop()
    ensures { ProgramsLoop }
{}

/// Each word of a program means the instruction that it stands for.
pub fn made_words_decode()
    ensures { WordsMeanTheProgram }
{}

/// The store of every draw is aligned, after the program's code, and within 192 pages from its first byte on.
pub fn stores_are_in_reach()
    ensures { StoresAreInReach }
{}

/// The file of every number is an image if program memory begins at 65536 and has room for the words. It starts at its
/// first word, and memory holds the words and zeros after them.
pub fn made_files_are_images()
    ensures { FilesAreImages }
{}
