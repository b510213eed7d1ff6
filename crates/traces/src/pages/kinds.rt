//! The kinds of lines, as the page's style names them.

use crate::reading::LineKind;

/// The class of an entry's line, by which the style colours it.
pub fn class_of(kind: LineKind) -> &'static str {
    match kind {
        LineKind::Emit => "emit",
        LineKind::Call => "call",
        LineKind::Native => "native",
        LineKind::Post => "post",
        LineKind::Dead => "dead",
        LineKind::Set => "set",
        LineKind::Bind => "bind",
        LineKind::Follow => "follow",
        LineKind::Connect => "connect",
        LineKind::Disconnect => "disconnect",
        LineKind::Refused(_) => "refused",
        LineKind::Null => "null",
        LineKind::Group => "group",
    }
}
