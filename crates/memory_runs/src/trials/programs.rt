//! A program on which many of the calls are made.

use certificate_lang::{Certificate, read_certificate};
use class_lang::read_program;
use meta_model::Meta;
use meta_objects::FromProgram;
use std::alloc::Global;

/// A source whose value a label shows.
pub const SOURCE: &str =
    "class Source { property int value = 0 notify valueChanged(int); signal valueChanged(int); slot setValue(int v) { set this.value = v; } } class Label { property int shown; slot show(int v) { set this.shown = v; } } wire Source valueChanged(int) -> Label show(int) auto;\n";

/// Its certificate.
pub const CERTIFICATE: &str =
    "certificate 1\nbound 5\nQObject.destroyed(QObject*) 0\nQObject.objectNameChanged(QString) 0\nQObject.deleteLater() 0\nQObject.objectName 1\n~QObject 1 QObject\nSource.destroyed(QObject*) 0\nSource.objectNameChanged(QString) 0\nSource.deleteLater() 0\nSource.valueChanged(int) 2\nSource.setValue(int) 4\nSource.objectName 1\nSource.value 3\n~Source 1 Source\nLabel.destroyed(QObject*) 0\nLabel.objectNameChanged(QString) 0\nLabel.deleteLater() 0\nLabel.show(int) 1\nLabel.objectName 1\nLabel.shown 0\n~Label 1 Label\n";

/// Its script.
pub const SCRIPT: &str =
    "new s Source\nnew l Label\nconnect s valueChanged(int) l show(int) auto\ncall s.setValue(7)\n";

/// A program, loaded.
pub fn loaded(alloc: Global, text: &str) -> Option<Meta> {
    let program = read_program(alloc, text.as_bytes()).ok()?;
    Meta::build(alloc, &program).ok()
}

/// The certificate, read.
pub fn certificate(alloc: Global) -> Option<Certificate> {
    read_certificate(alloc, CERTIFICATE.as_bytes()).ok()
}
