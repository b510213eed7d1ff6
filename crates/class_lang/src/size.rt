//! How large a program may be.

ghost use Rattle.std.specs.Prelude.{◌≡◌};
ghost use Rattle.class_lang.specs.Limits.{standard, wide};

use texts::MOST_BYTES;

/// How large a program may be: what the reader refuses with `TooLarge` where there is more (docs/language.md, "Limits").
#[derive(Clone, Copy)]
pub struct Limits {
    /// Bytes of its text.
    pub bytes: usize,
    /// Bytes of each name that it declares.
    pub name: usize,
    /// Classes.
    pub classes: usize,
    /// Signals, slots and natives of a class, counted together.
    pub methods: usize,
    /// Properties of a class.
    pub properties: usize,
    /// Natives of all classes together.
    pub natives: usize,
    /// Wires.
    pub wires: usize,
    /// Declarations of ownership.
    pub owns: usize,
    /// Bindings.
    pub sites: usize,
}

impl Limits {
    /// Those of a program that a person writes.
    pub fn standard() -> Limits
        ensures { result ≡ standard }
    {
        Limits {
            bytes: MOST_BYTES,
            name: MOST_BYTES,
            classes: 256,
            methods: 64,
            properties: 32,
            natives: 64,
            wires: 1000,
            owns: 1000,
            sites: 1000,
        }
    }

    /// Those of a program that a tool writes, as one that is read from C++.
    pub fn wide() -> Limits
        ensures { result ≡ wide }
    {
        Limits {
            bytes: 33_554_432,
            name: 255,
            classes: 8192,
            methods: 1024,
            properties: 256,
            natives: 64,
            wires: 16_384,
            owns: 16_384,
            sites: 16_384,
        }
    }
}
