//! The lines of the command `meta`.

ghost use Rattle.std.specs.Prelude.{◌≡◌, drop, option_copied};
ghost use Rattle.std.specs.List.{flat_map};
ghost use Rattle.basic_types.specs.Spelling.{const_text, star_text, text_of_sig, text_of_type, text_of_types, text_of_others};
ghost use Rattle.meta_model.specs.Members.{base_class, methods_in, properties_in};
ghost use Rattle.command_lines.specs.MetaLines.{described, class_line, class_lines, method_line, method_lines, notify_text, property_line, meta_text, work_text, base_text};
ghost use Rattle.command_lines.specs.Sent.{Puts};

use crate::output::Output;
use basic_types::{QType, Shared, Sig};
use meta_model::{Meta, MetaMethod, MetaObject, MetaProperty, Work};
use std::io::Write;

impl<W: Write> Output<'_, W> {
    /// Adds a type.
    fn kind(&mut self, kind: &QType)
        ensures { Puts W.contents self.old self.new (text_of_type kind.now) }
    {
        self.put(const_text(kind.constant));
        self.name(&kind.name);
        self.put(star_text(kind.pointer));
    }

    /// Adds types, separated by commas.
    fn types(&mut self, types: &[QType])
        ensures { Puts W.contents self.old self.new (text_of_types types.now) }
    {
        let Some((first, rest)) = types.split_first() else {
            return;
        };
        self.kind(first);
        self.other_types(rest);
    }

    /// Adds types, a comma in front of each.
    fn other_types(&mut self, types: &[QType])
        ensures { Puts W.contents self.old self.new (text_of_others types.now) }
    {
        let mut left = types;
        while let Some((kind, after)) = left.split_first() {
            self.put_byte(b',');
            self.kind(kind);
            left = after;
        }
    }

    /// Adds a signature.
    pub fn sig(&mut self, sig: &Sig)
        ensures { Puts W.contents self.old self.new (text_of_sig sig.now) }
    {
        self.name(&sig.name);
        self.put_byte(b'(');
        self.types(sig.types.as_slice());
        self.put_byte(b')');
    }

    /// Adds the line of a method.
    fn method(&mut self, number: usize, method: &MetaMethod)
        ensures { Puts W.contents self.old self.new (method_line number method.now) }
    {
        self.number(number);
        self.put(work_text(&method.work));
        self.sig(&method.sig);
        self.put_byte(b'\n');
    }

    /// Adds the line of a property of the class.
    fn property(&mut self, class: &MetaObject, property: &MetaProperty)
        ensures { Puts W.contents self.old self.new (property_line class.now property.now) }
    {
        self.put_word(b"property ");
        self.name(&property.name);
        self.put_byte(b' ');
        self.kind(&property.declared);
        self.notify(class, property.notify);
        self.put_byte(b'\n');
    }

    /// Adds what notifies of a property of the class.
    fn notify(&mut self, class: &MetaObject, notify: Option<usize>)
        ensures { Puts W.contents self.old self.new (notify_text class.now notify) }
    {
        let Some(number) = notify else {
            return;
        };
        if let Some(signal) = class.method(number) {
            self.put_word(b" notify ");
            self.sig(&signal.sig);
        }
    }
}

impl<W: Write> Output<'_, W> {
    /// Adds the lines of every class.
    pub fn classes(&mut self, meta: &Meta)
        ensures { Puts W.contents self.old self.new (meta_text meta.now) }
    {
        self.listed(meta, meta.classes());
    }

    /// Adds the lines of these classes of a program.
    fn listed(&mut self, meta: &Meta, classes: &[MetaObject])
        ensures { Puts W.contents self.old self.new (flat_map (described meta.now) classes.now) }
    {
        let mut left = classes;
        while let Some((class, after)) = left.split_first() {
            self.described(meta, class);
            left = after;
        }
    }

    /// Adds the lines of a class of a program.
    fn described(&mut self, meta: &Meta, class: &MetaObject)
        ensures { Puts W.contents self.old self.new (described meta.now class.now) }
    {
        self.class(class, base_of(meta, class));
    }

    /// Adds the lines of a class that stands under this base.
    fn class(&mut self, class: &MetaObject, base: Option<&MetaObject>)
        ensures { Puts W.contents self.old self.new (class_lines class.now (option_copied base.entry)) }
    {
        self.head(class, base);
        self.methods(method_offset(base), class.methods.as_slice());
        let own = behind_front(property_offset(base), class.properties.as_slice());
        self.properties(class, own);
    }

    /// Adds the lines of properties of the class.
    fn properties(&mut self, class: &MetaObject, properties: &[Shared<MetaProperty>])
        ensures { Puts W.contents self.old self.new (flat_map (property_line class.now) properties.now) }
    {
        for property in properties {
            self.property(class, property.get());
        }
    }

    /// Adds a class's first line.
    fn head(&mut self, class: &MetaObject, base: Option<&MetaObject>)
        ensures { Puts W.contents self.old self.new (class_line class.now (option_copied base.entry)) }
    {
        self.put_word(b"class ");
        self.name(&class.name);
        self.under(base);
        self.put_byte(b' ');
        self.number(method_offset(base));
        self.put_byte(b' ');
        self.number(class.methods.len());
        self.put_byte(b'\n');
    }

    /// Adds what a class stands under.
    fn under(&mut self, base: Option<&MetaObject>)
        ensures { Puts W.contents self.old self.new (base_text (option_copied base.entry)) }
    {
        if let Some(base) = base {
            self.put_word(b" : ");
            self.name(&base.name);
        }
    }

    /// Adds the lines of the methods behind the first ones, so many.
    fn methods(&mut self, offset: usize, methods: &[Shared<MetaMethod>])
        ensures { Puts W.contents self.old self.new (method_lines offset (drop offset methods.now)) }
    {
        let mut number = offset;
        while let Some(method) = methods.get(number) {
            self.method(number, method.get());
            number += 1;
        }
    }
}

/// What comes before a type's name.
fn const_text(constant: bool) -> &'static [u8]
    ensures { result.now ≡ const_text constant }
{
    if constant { b"const " } else { b"" }
}

/// What follows a type's name.
fn star_text(pointer: bool) -> &'static [u8]
    ensures { result.now ≡ star_text pointer }
{
    if pointer { b"*" } else { b"" }
}

/// The word for what a method does.
fn work_text(work: &Work) -> &'static [u8]
    ensures { result.now ≡ work_text work.now }
{
    match work {
        Work::Signal => b" signal ",
        Work::Slot(_) => b" slot ",
        Work::Native(_) => b" native ",
    }
}

/// The class that a class stands under.
fn base_of<'m>(meta: &'m Meta, class: &MetaObject) -> Option<&'m MetaObject>
    ensures { option_copied result ≡ base_class meta.now class.now }
{
    match class.base {
        Some(base) => meta.object(base),
        None => None,
    }
}

/// How many methods a class has from its base.
fn method_offset(base: Option<&MetaObject>) -> usize
    ensures { result ≡ methods_in (option_copied base.entry) }
{
    match base {
        Some(base) => base.methods.len(),
        None => 0,
    }
}

/// How many properties a class has from its base.
fn property_offset(base: Option<&MetaObject>) -> usize
    ensures { result ≡ properties_in (option_copied base.entry) }
{
    match base {
        Some(base) => base.properties.len(),
        None => 0,
    }
}

/// What follows the first ones, so many.
fn behind_front<T>(front: usize, items: &[T]) -> &[T]
    ensures { result.now ≡ drop front items.now }
{
    if front < items.len() {
        &items[front..]
    } else {
        &items[items.len()..]
    }
}
