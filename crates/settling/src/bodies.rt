//! Bodies in which each statement that does something to a node does it with the value that the slot was called with.

ghost use Rattle.std.specs.Prelude.{IsTrue, ◌↔◌, [], ◌∷◌};
ghost use Rattle.effect_scan.specs.Edges.{AtOrBelow, Reaches};
ghost use Rattle.settling.specs.code.Bodies.{DoesTo, BodyHands};

use crate::statements::hands_value;
use effect_scan::{Effect, Member, Node, Reach, effect_of};
use meta_model::{Meta, Statement, ValueType};

/// Whose body is looked through, and for what.
#[derive(Clone, Copy)]
pub struct BodySearch<'m> {
    /// The program.
    pub meta: &'m Meta,
    /// The class of the body.
    pub class: usize,
    /// The types of its parameters.
    pub types: &'m [ValueType],
    /// The node that its statements may do something to.
    pub to: Node,
}

impl<'m> BodySearch<'m> {
    /// Whether each of these statements that does something to the node, with those that are in them, hands on the value that
    /// the slot was called with. In a group none does.
    #[cycle(bodies)]
    pub fn all_hand_on(&self, body: &[Statement], grouped: bool) -> bool
        ensures { IsTrue result ↔
            BodyHands self.now.meta.now self.now.class self.now.types.now grouped body.now self.now.to }
    {
        for statement in body {
            if !self.hands_on(statement, grouped) {
                return false;
            }
        }
        true
    }

    /// The same of one statement, and of those that are in it.
    #[cycle(bodies)]
    fn hands_on(&self, statement: &Statement, grouped: bool) -> bool
        ensures { IsTrue result ↔
            BodyHands self.now.meta.now self.now.class self.now.types.now grouped (statement.now ∷ []) self.now.to }
    {
        match statement {
            Statement::If(_, chosen, other) => {
                if !self.all_hand_on(chosen.as_slice(), grouped) {
                    return false;
                }
                self.all_hand_on(other.as_slice(), grouped)
            }
            Statement::Group(sets) => self.all_hand_on(sets.as_slice(), true),
            _ => {
                if self.is_done_by(statement) {
                    !grouped && hands_value(statement)
                } else {
                    true
                }
            }
        }
    }

    /// Whether the statement does something to the node by itself.
    fn is_done_by(&self, statement: &Statement) -> bool
        ensures { IsTrue result ↔
            DoesTo self.now.meta.now self.now.class self.now.types.now statement.now self.now.to }
    {
        match effect_of(self.types, statement) {
            Some(effect) => self.reaches(effect),
            None => false,
        }
    }

    /// Whether the effect is one on the node.
    fn reaches(&self, effect: Effect) -> bool
        ensures { IsTrue result ↔ Reaches self.now.meta.now self.now.class effect self.now.to }
    {
        let member = effect.member;
        match effect.reach {
            Reach::Own => {
                let class = self.class;
                self.to == Node { class, member }
            }
            Reach::Below(class) => is_below(self.meta, self.to, class, member),
        }
    }
}

/// Whether the node is this member, in the class or one below it.
fn is_below(meta: &Meta, place: Node, class: usize, member: Member) -> bool
    ensures { IsTrue result ↔ AtOrBelow meta.now class member place }
{
    place.member == member && meta.inherits(place.class, class)
}
