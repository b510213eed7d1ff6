//! Laws on the commands.

ghost use Rattle.program_commands.specs.Commands.{CertifiedIsAgreed, OneDescription, OneCertifying, OneCheck, OneSettlingCertifying, OneSettlingCheck};

/// What `certify` writes of a program with the exit status 0 is a certificate that `check` says yes to, byte for byte.
pub fn certified_is_agreed()
    ensures { CertifiedIsAgreed }
{}

/// Unless memory runs out, what `meta`, `certify` and `check` write is determined by their texts; of several cycles,
/// paths or chains that show why a program has no certificate `certify` may name any one.
pub fn one_outcome()
    ensures meta { OneDescription }
    ensures certify { OneCertifying }
    ensures check { OneCheck }
{}

/// Unless memory runs out, what `check --settling` writes is determined by its texts, and `certify --settling` refuses the same texts.
pub fn one_settling_outcome()
    ensures certify { OneSettlingCertifying }
    ensures check { OneSettlingCheck }
{}
