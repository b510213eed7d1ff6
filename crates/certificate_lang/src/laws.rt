//! Laws on the text of certificates.

ghost use Rattle.certificate_lang.specs.Written.{TextsAreRead, NodesAreRead, OneNode};

/// The text of a certificate that can be written is a certificate, and is read as the one that it was written from.
pub fn texts_are_read()
    ensures { TextsAreRead }
{}

/// The text of a node's name that can be written is read as that name, and no text is the name of two nodes.
pub fn one_node()
    ensures read { NodesAreRead }
    ensures one { OneNode }
{}
