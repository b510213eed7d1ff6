//! Laws on the certificates of a program.

ghost use Rattle.program_commands.specs.Laws.{OneLeast, OneMade, OneMaking, OneVerdict, ValidIsWritable, MadeIsRead};

/// A program has at most one valid certificate that is the least one and in order, so that a program's text has at most one
/// certificate that is made for it.
pub fn one_least()
    ensures least { OneLeast }
    ensures made { OneMade }
{}

/// Unless memory runs out, what is made for a program is one certificate or one reason: the same wire, the same node or
/// binding, or that there is a cycle, a path to a destruction or too long a chain.
pub fn one_making()
    ensures { OneMaking }
{}

/// Unless memory runs out, a check of a program with a certificate has one answer: a yes, or the no of one number.
pub fn one_verdict()
    ensures { OneVerdict }
{}

/// A certificate that is valid for a program that was read from a text and loaded can be written: its names aren't reserved
/// words, its signatures are in normal form, and its numbers aren't too large.
pub fn valid_is_writable()
    ensures { ValidIsWritable }
{}

/// The text of the certificate that the maker makes for a program, which was read from a text and loaded, is read as that
/// certificate.
pub fn made_is_read()
    ensures { MadeIsRead }
{}
