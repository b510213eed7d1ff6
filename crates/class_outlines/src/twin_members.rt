//! Members that appear twice in a class.

ghost use Rattle.std.specs.Prelude.{◌≡◌, ◌+◌, ◌<◌, length, Some, slice_get};
ghost use Rattle.class_outlines.specs.Indexed.{IndexesHeadings, IndexesDeclared};
ghost use Rattle.class_outlines.specs.Offences.{IsMember, IsOffence};
ghost use Rattle.class_outlines.specs.code.OwnMembers.{IsNext, IsOverBase, AreTwinMembers, FindsTwinMembers};
ghost use Rattle.class_outlines.specs.declared.fault.MetaFault.TheVariants as fault;
ghost use Rattle.class_outlines.specs.declared.offence.Declaration.TheVariants as declaration;
ghost use Rattle.class_outlines.specs.declared.reason.Reason.TheVariants as reason;
ghost use Rattle.syntax_trees.specs.declared.program.Class.{Class};

use crate::bases::{inherited_methods, inherited_properties};
use crate::indexed::IndexedOutline;
use crate::offence::{Declaration, Member, Offence};
use crate::outline::Outline;
use crate::reason::{Reason, Repeated};
use name_indexes::{CallIndex, Twins, find_twins};
use syntax_trees::Program;

/// Two members of a class that are one, by their places among its members of that sort.
#[derive(Clone, Copy, Debug, PartialEq, Eq)]
pub enum TwinMembers {
    /// Methods of one name and as many parameters.
    Methods(Twins),
    /// Properties of one name.
    Properties(Twins),
}

/// Two methods or two properties of the class behind these that are one, by indexes of them.
pub fn find_twin_members(
    before: &[IndexedOutline],
    outline: &Outline,
    methods: &CallIndex,
    properties: &CallIndex,
) -> Option<TwinMembers>
    requires over { IsOverBase before.now outline.now }
    requires methods_by { IndexesHeadings outline.now.methods methods.now }
    requires properties_by { IndexesDeclared outline.now.properties properties.now }
    ensures { FindsTwinMembers outline.now result }
{
    let inherited = inherited_methods(before, outline.base);
    if let Some(twins) = find_twins(methods, inherited, outline.methods.as_slice()) {
        return Some(TwinMembers::Methods(twins));
    }
    let others = inherited_properties(before, outline.base);
    match find_twins(properties, others, outline.properties.as_slice()) {
        Some(twins) => Some(TwinMembers::Properties(twins)),
        None => None,
    }
}

/// That the class behind these declares the second of the two members, which has the first one's name.
pub fn twin_offence(
    program: &Program,
    before: &[IndexedOutline],
    outline: &Outline,
    twins: TwinMembers,
) -> Offence
    requires next { IsNext program.now before.now outline.now }
    requires twins { AreTwinMembers outline.now twins }
    ensures { IsOffence program.now fault.DuplicateMember result }
{
    let number = before.len().saturating_sub(1);
    match twins {
        TwinMembers::Methods(twins) => {
            let inherited = inherited_methods(before, outline.base);
            let member = own_method(program, number, twins.again.saturating_sub(inherited));
            twin(number, member, 0, Repeated::Method(twins.first < inherited))
        }
        TwinMembers::Properties(twins) => {
            let inherited = inherited_properties(before, outline.base);
            let member = Member::Property(twins.again.saturating_sub(inherited));
            twin(
                number,
                member,
                1,
                Repeated::Property(twins.first < inherited),
            )
        }
    }
}

/// That the member of the class of this number appears twice, by the name of that number.
fn twin(class: usize, member: Member, name: usize, repeated: Repeated) -> Offence
    ensures { result ≡ record {
      declaration = declaration.Member class member;
      name = name;
      reason = reason.DuplicateMember repeated;
    } }
{
    Offence {
        declaration: Declaration::Member(class, member),
        name,
        reason: Reason::DuplicateMember(repeated),
    }
}

/// The method of this place among those that the class of this number declares itself: signals come first.
fn own_method(program: &Program, number: usize, own: usize) -> Member
    ensures { (class : Class) → slice_get program.now.classes number ≡ Some class
        → own < length class.signals + length class.slots → IsMember class result }
{
    let Some(class) = program.classes.get(number) else {
        return Member::Signal(own);
    };
    let signals = class.signals.len();
    if own < signals {
        Member::Signal(own)
    } else {
        Member::Slot(own - signals)
    }
}
