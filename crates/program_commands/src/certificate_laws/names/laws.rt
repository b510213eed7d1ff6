//! Laws on the names of programs.

ghost use Rattle.program_commands.specs.Names.{ReadProgramsAreNamed, LoadedProgramsAreNamed};

/// In a program that is read from a text no class, signal, slot, native or property has a reserved word for its name, and the
/// signatures of signals, slots and natives are in normal form.
pub fn read_names()
    ensures { ReadProgramsAreNamed }
{}

/// So it is in the classes that are loaded of such a program, with what they inherit.
pub fn loaded_names()
    ensures { LoadedProgramsAreNamed }
{}
