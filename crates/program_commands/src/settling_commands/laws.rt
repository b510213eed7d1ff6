//! The law on the commands `certify --settling` and `check --settling`.

ghost use Rattle.program_commands.specs.Settling.{SettlingIsAgreed};

/// Each certificate that `certify --settling` comes to is one that `check --settling` says yes to, byte for byte, with the same program
/// and limits; unless memory runs out it comes to nothing else.
pub fn settling_is_agreed()
    ensures { SettlingIsAgreed }
{}
