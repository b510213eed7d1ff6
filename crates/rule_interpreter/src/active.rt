//! What is active below.

ghost use Rattle.std.specs.Prelude.{◌≡◌, ◌<◌, [], ◌∷◌, length};
ghost use Rattle.texts.specs.Limits.{most_depth};
ghost use Rattle.rule_interpreter.specs.code.Active.{shows_body, frame_shows};

use basic_types::ObjectId;
use std::marker::Model;

/// One activation after the other, each over those that were active when it began.
#[derive(Drop)]
enum Frame<'b> {
    /// Nothing.
    Nothing,
    /// An activation, by the object whose body it is, over others.
    Over(Option<ObjectId>, &'b Frame<'b>),
}

/// What is active below: of each activation the object whose body it is, or none, the latest first. It is lent from
/// call to call, so no memory is asked for.
#[derive(Drop)]
pub struct Active<'b> {
    latest: Frame<'b>,
    count: usize,
}

impl<'b> Model for Active<'b> {
    ghost use Rattle.std.specs.Prelude.{◌≡◌, ℕ, List, length, Option};
    ghost use Rattle.rule_interpreter.specs.code.Active.{frame_shows};

    ghost Value = { List (Option ℕ) };

    ghost view = { λ active. frame_shows active.latest };

    ghost invariant = { λ active. active.count ≡ length (frame_shows active.latest) };
}

impl<'b> Frame<'b> {
    /// Whether one of these is a body of the object.
    fn has_body(&self, object: ObjectId) -> bool
        ensures { result ≡ shows_body object (frame_shows self.now) }
    {
        match self {
            Frame::Nothing => false,
            Frame::Over(body, below) => *body == Some(object) || below.has_body(object),
        }
    }
}

impl<'b> Active<'b> {
    /// Nothing is active.
    #[tactic(auto, using(crate::proofs::Frames::equations))]
    pub fn nothing() -> Active<'b>
        ensures { result ≡ [] }
    {
        Active {
            latest: Frame::Nothing,
            count: 0,
        }
    }

    /// One activation over these: the body of this object, or no body.
    pub fn over(&'b self, body: Option<ObjectId>) -> Active<'b>
        requires { length self.now < most_depth }
        ensures { result ≡ body ∷ self.now }
    {
        Active {
            latest: Frame::Over(body, &self.latest),
            count: self.count + 1,
        }
    }

    /// Whether a body of the object is active.
    pub fn has_body(&self, object: ObjectId) -> bool
        ensures { result ≡ shows_body object self.now }
    {
        self.latest.has_body(object)
    }

    /// How many there are.
    pub fn count(&self) -> usize
        ensures { result ≡ length self.now }
    {
        self.count
    }
}
