//! What `moc --output-json` and `moc --collect-json` write, as far as it is read.

use serde::Deserialize;

/// What moc writes of a header.
#[derive(Drop, Deserialize)]
pub struct MocFile {
    /// Its classes, and what else has meta-objects: gadgets and namespaces.
    #[serde(default)]
    pub classes: Vec<MocClass>,
}

/// A class, a gadget or a namespace.
#[derive(Drop, Deserialize)]
#[serde(rename_all = "camelCase")]
pub struct MocClass {
    /// Its name without its scope.
    pub class_name: String,
    /// Its name with its scope, as `Outer::Inner`.
    #[serde(default)]
    pub qualified_class_name: String,
    /// Whether it has `Q_OBJECT`.
    #[serde(default)]
    pub object: bool,
    #[serde(default)]
    pub super_classes: Vec<MocBase>,
    #[serde(default)]
    pub enums: Vec<MocEnum>,
    #[serde(default)]
    pub properties: Vec<MocProperty>,
    #[serde(default)]
    pub signals: Vec<MocMethod>,
    #[serde(default)]
    pub slots: Vec<MocMethod>,
    /// What is `Q_INVOKABLE`.
    #[serde(default)]
    pub methods: Vec<MocMethod>,
}

/// A base of a class.
#[derive(Drop, Deserialize)]
pub struct MocBase {
    pub name: String,
}

/// An enum, or a flag, which has the name of its enum besides.
#[derive(Drop, Deserialize)]
pub struct MocEnum {
    pub name: String,
    #[serde(default)]
    pub alias: String,
}

/// A property, with the names of its notify signal and of the method that writes it.
#[derive(Drop, Deserialize)]
pub struct MocProperty {
    pub name: String,
    #[serde(rename = "type")]
    pub kind: String,
    #[serde(default)]
    pub notify: String,
    #[serde(default)]
    pub write: String,
}

/// A signal, a slot or an invokable method.
#[derive(Drop, Deserialize)]
pub struct MocMethod {
    pub name: String,
    #[serde(default)]
    pub arguments: Vec<MocArgument>,
}

/// A parameter; its name is empty where the header has none.
#[derive(Drop, Deserialize)]
pub struct MocArgument {
    #[serde(default)]
    pub name: String,
    #[serde(rename = "type")]
    pub kind: String,
}
