//! A program with a certificate that isn't valid for it.

ghost use Rattle.std.specs.Prelude.{◌≡◌};
ghost use Rattle.rank_check.specs.Checks.{IsCause, no_of};

use crate::causes::Cause;
use crate::no::No;
use certificate_lang::Certificate;
use meta_model::Meta;
use std::error::Error;
use std::fmt;
use std::fmt::{Debug, Display, Formatter};
use std::marker::Model;

/// A program that loads, with a certificate that isn't valid for it, and what makes it so. Contracts see the condition, and
/// the cause by its call.
pub struct Denied {
    meta: Meta,
    certificate: Certificate,
    cause: Cause,
}

impl Drop for Denied {
    fn drop(self) {
        let Denied {
            meta: _,
            certificate: _,
            cause: _,
        } = self;
    }
}

impl Model for Denied {
    ghost use Rattle.rank_check.specs.Checks.{Denial, IsCause, no_of};
    ghost use Rattle.std.specs.Coded.{codes};
    ghost use Rattle.syntax_trees.specs.contracts.syntax.Expr as expr;
    ghost use Rattle.meta_model.specs.contracts.object.Statement as statement;
    ghost use Rattle.meta_model.specs.contracts.site.SourceProperty as source;

    ghost Value = { Denial };

    ghost coded = { Prim.hlevel (codes, statement.the_row.coded, (expr.the_row source.the_row).coded) };

    ghost view = { λ denied. record {
      program = denied.meta;
      certificate = denied.certificate;
      no = no_of denied.cause;
    } };

    ghost invariant = { λ denied. IsCause denied.meta denied.certificate denied.cause };
}

impl Denied {
    /// The program with the certificate, and what `judge` says of them.
    pub fn new(meta: Meta, certificate: Certificate, cause: Cause) -> Denied
        requires { IsCause meta certificate cause }
        ensures program { result.program ≡ meta }
        ensures certificate { result.certificate ≡ certificate }
        ensures no { result.no ≡ no_of cause }
    {
        Denied {
            meta,
            certificate,
            cause,
        }
    }

    /// The program.
    pub fn meta(&self) -> &Meta
        ensures { result.now ≡ self.now.program }
    {
        &self.meta
    }

    /// The certificate.
    pub fn certificate(&self) -> &Certificate
        ensures { result.now ≡ self.now.certificate }
    {
        &self.certificate
    }

    /// What breaks the first condition that doesn't hold.
    pub fn cause(&self) -> Cause
        ensures breaks { IsCause self.now.program self.now.certificate result }
        ensures no { no_of result ≡ self.now.no }
    {
        self.cause
    }

    /// That condition.
    pub fn no(&self) -> No
        ensures { result ≡ self.now.no }
    {
        self.cause.no()
    }
}

/// The cause, for whoever looks for a mistake in a program that calls the check.
impl Debug for Denied {
    fn fmt<W: fmt::Write>(&self, f: &mut Formatter<W>) -> fmt::Result {
        Debug::fmt(&self.cause, f)
    }
}

/// What the condition says.
impl Display for Denied {
    fn fmt<W: fmt::Write>(&self, f: &mut Formatter<W>) -> fmt::Result {
        Display::fmt(&self.cause.no(), f)
    }
}

impl Error for Denied {}
