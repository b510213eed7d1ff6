//! Which signals and slots effects name.

use crate::classes::{ImportedMethod, mapped_type};
use crate::effects::fault::EffectFault;
use crate::effects::lookup::{Lookup, SoughtMember, SoughtSort};
use crate::effects::signatures::push_signature;
use std::alloc::{AllocError, Global};

/// The slot that every object has.
const DELETE_LATER: &str = "deleteLater";

const RUNTIME_SIGNAL: &str = "a signal of `QObject`, which the runtime alone emits";

const CALLED_SIGNAL: &str = "a signal, which nobody calls: a slot of its class may emit it";

impl<'i, 'f> Lookup<'i, 'f> {
    /// The signal or slot that is sought: where types are given the one with these, else the only one of the name. It is `None`
    /// for the slot that every object has.
    pub fn method(
        self,
        alloc: Global,
        sought: SoughtMember<'_>,
        types: Option<&[&str]>,
    ) -> Result<Option<&'i ImportedMethod<'f>>, EffectFault> {
        if is_delete_later(sought, types) {
            return Ok(None);
        }
        let (found, count) = self.found(sought, types);
        if count > 1 {
            return Err(self.several(alloc, sought)?);
        }
        match found {
            Some(method) => Ok(Some(method)),
            None => Err(self.no_method(alloc, sought)?),
        }
    }

    /// The last one of the signals or slots that may be the one that is sought, and how many they are.
    fn found(
        self,
        sought: SoughtMember<'_>,
        types: Option<&[&str]>,
    ) -> (Option<&'i ImportedMethod<'f>>, usize) {
        let mut found = None;
        let mut count = 0usize;
        for class in self.catalogue().lineage(sought.class) {
            if let Some(own) = self.import.members.get(class) {
                for method in own.methods.as_slice() {
                    if sought.is_called_as(method) && self.takes(class, method, types) {
                        found = Some(method);
                        count = count.saturating_add(1);
                    }
                }
            }
        }
        (found, count)
    }

    /// Whether the method of this class has parameters of these types, if some are given.
    fn takes(self, class: usize, method: &ImportedMethod<'_>, types: Option<&[&str]>) -> bool {
        let Some(types) = types else {
            return true;
        };
        let mut left = types;
        for parameter in method.parameters.as_slice() {
            let [kind, rest @ ..] = left else {
                return false;
            };
            match mapped_type(self.catalogue(), class, kind) {
                Some(mapped) if mapped.kind == parameter.mapped.kind => left = rest,
                _ => return false,
            }
        }
        left.is_empty()
    }

    /// That more signals or slots than one have the name.
    fn several(self, alloc: Global, sought: SoughtMember<'_>) -> Result<EffectFault, AllocError> {
        let class = self.catalogue().name(sought.class);
        let there = self.signatures(alloc, sought)?;
        Ok(EffectFault::of(
            alloc,
            &[
                "which `",
                sought.name,
                "` of `",
                class,
                "`? It has ",
                there.as_str(),
            ],
        ))
    }

    /// That none of the signals or slots of the name has the types that are given.
    fn other_types(
        self,
        alloc: Global,
        sought: SoughtMember<'_>,
    ) -> Result<EffectFault, AllocError> {
        let class = self.catalogue().name(sought.class);
        let what = sought.sort.word();
        let name = sought.name;
        let there = self.signatures(alloc, sought)?;
        let told = format!(in alloc;
            "`{class}` has no {what} `{name}` of these types: it has {there}"
        )?;
        Ok(EffectFault::of(alloc, &[told.as_str()]))
    }

    /// The signatures of all signals, or all slots, of the name, with commas between them.
    fn signatures(self, alloc: Global, sought: SoughtMember<'_>) -> Result<String, AllocError> {
        let mut text = String::new(alloc);
        self.push_signatures(&mut text, sought)?;
        Ok(text)
    }

    /// Adds the signatures of all signals, or all slots, of the name to a text that is empty.
    fn push_signatures(
        self,
        text: &mut String,
        sought: SoughtMember<'_>,
    ) -> Result<(), AllocError> {
        for class in self.catalogue().lineage(sought.class) {
            if let Some(own) = self.import.members.get(class) {
                for method in own.methods.as_slice() {
                    if sought.is_called_as(method) {
                        text.push_str(if text.is_empty() { "`" } else { ", `" })?;
                        push_signature(text, self.catalogue(), method)?;
                        text.push_str("`")?;
                    }
                }
            }
        }
        Ok(())
    }

    /// Why none of the signals or slots is the one that is sought.
    fn no_method(self, alloc: Global, sought: SoughtMember<'_>) -> Result<EffectFault, AllocError> {
        let name = sought.name;
        if self.is_there(sought) {
            return self.other_types(alloc, sought);
        }
        if sought.sort == SoughtSort::Signal {
            if matches!(name, "destroyed" | "objectNameChanged") {
                return Ok(EffectFault::of_name(alloc, name, RUNTIME_SIGNAL));
            }
        } else if self.is_there(SoughtMember {
            sort: SoughtSort::Signal,
            ..sought
        }) {
            return Ok(EffectFault::of_name(alloc, name, CALLED_SIGNAL));
        }
        self.no_member(alloc, sought)
    }

    /// Whether the class or a base of it has a signal, or a slot, of the name.
    fn is_there(self, sought: SoughtMember<'_>) -> bool {
        let (_, count) = self.found(sought, None);
        count > 0
    }
}

/// Whether this is the slot of `QObject`.
fn is_delete_later(sought: SoughtMember<'_>, types: Option<&[&str]>) -> bool {
    let has_types = match types {
        Some(types) => !types.is_empty(),
        None => false,
    };
    sought.sort == SoughtSort::Slot && sought.name == DELETE_LATER && !has_types
}
