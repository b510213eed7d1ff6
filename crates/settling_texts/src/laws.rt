//! Laws on the texts of settling certificates.

ghost use Rattle.std.specs.Prelude.{ℕ, List};
ghost use Rattle.settling_texts.specs.Reads.{HasOneSettling};
ghost use Rattle.settling_texts.specs.Written.{TextsAreRead};

/// A text is at most one settling certificate.
pub fn one_reading()
    ensures { (text : List ℕ) → HasOneSettling text }
{}

/// The text of a settling certificate that can be written is a settling certificate, and is read as the one that it was written
/// from.
pub fn texts_are_read()
    ensures { TextsAreRead }
{}
