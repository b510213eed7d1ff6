//! Whether a certificate is valid for a program.

ghost use Rattle.std.specs.Prelude.{◌≡◌, ◌≤◌};
ghost use Rattle.effect_scan.specs.Scans.{IsScan};
ghost use Rattle.rank_check.specs.Checks.{Checks, Examines};
ghost use Rattle.rank_check.specs.Valid.{IsValid, most_bound};

use crate::denied::Denied;
use crate::judging::judge_scanned;
use crate::no::No;
use certificate_lang::Certificate;
use effect_scan::Scan;
use meta_model::Meta;
use std::alloc::Global;
use std::marker::Model;
use std::snapshot::Snapshot;

/// A program that loads, with a certificate that is valid for it. Contracts see both; of the certificate the bound alone is
/// kept, and of the check the scan of the program.
pub struct Checked {
    meta: Meta,
    scan: Scan,
    bound: u32,
    certificate: Snapshot<Certificate>,
}

impl Drop for Checked {
    fn drop(self) {
        let Checked {
            meta: _,
            scan: _,
            bound: _,
            certificate: _,
        } = self;
    }
}

impl Model for Checked {
    ghost use Rattle.rank_check.specs.Checks.{Checking};
    ghost use Rattle.rank_check.specs.Valid.{IsValid};
    ghost use Rattle.effect_scan.specs.Scans.{IsScan};
    ghost use Rattle.std.specs.Prelude.{◌≡◌};
    ghost use Rattle.std.specs.Coded.{codes};
    ghost use Rattle.syntax_trees.specs.contracts.syntax.Expr as expr;
    ghost use Rattle.meta_model.specs.contracts.object.Statement as statement;
    ghost use Rattle.meta_model.specs.contracts.site.SourceProperty as source;

    ghost Value = { Checking };

    ghost coded = { Prim.hlevel (codes, statement.the_row.coded, (expr.the_row source.the_row).coded) };

    ghost view = { λ checked. record { program = checked.meta; certificate = checked.certificate.value } };

    ghost invariant = { λ checked.
        IsValid checked.meta checked.certificate.value
        × IsScan checked.meta checked.scan
        × (checked.bound ≡ checked.certificate.value.bound) };
}

impl Checked {
    /// The program with its scan, and with a certificate, which isn't needed any more.
    fn new(meta: Meta, scan: Scan, certificate: Certificate) -> Checked
        requires scan { IsScan meta scan }
        requires valid { IsValid meta certificate }
        ensures program { result.program ≡ meta }
        ensures certificate { result.certificate ≡ certificate }
    {
        Checked {
            meta,
            scan,
            bound: certificate.bound,
            certificate: Snapshot::of(&certificate),
        }
    }

    /// The program.
    pub fn meta(&self) -> &Meta
        ensures value { result.now ≡ self.now.program }
        ensures valid { IsValid self.now.program self.now.certificate }
    {
        &self.meta
    }

    /// The certificate's bound: how deep activations nest at most, from 1 to 256.
    pub fn bound(&self) -> usize
        ensures value { result ≡ self.now.certificate.bound }
        ensures least { 1 ≤ result }
        ensures most { result ≤ most_bound }
        ensures valid { IsValid self.now.program self.now.certificate }
    {
        // The contract of `classes` says that `QObject` is there, and so that there is a node, whose rank is below the
        // bound.
        let _classes = self.meta.classes();
        self.bound as usize
    }

    /// The scan of the program.
    pub fn scan(&self) -> &Scan
        ensures { IsScan self.now.program result.now }
    {
        &self.scan
    }

    /// The program, without the certificate.
    pub fn into_meta(self) -> Meta
        ensures { result ≡ self.program }
    {
        let Checked {
            meta,
            scan: _scan,
            bound: _bound,
            certificate: _certificate,
        } = self;
        meta
    }
}

/// Whether the certificate is valid for the program, judged on both alone. The first of these that holds is answered:
/// `Wire`, where a wire's method doesn't fit its signal; `BodyType`, where a literal, a body or a binding isn't typed;
/// `Missing`, where a node has no line; `Extra`, where a line is for something that isn't a node or for the node of
/// another line, or a class in a set isn't there; `Edge`, where a rank doesn't fall along an edge; `Destroys`, where a set
/// lacks a class of the set at the end of an edge, that of `~C` one of the closure of C, or that of a slot or native of C
/// holds C; `Bound`, where a rank isn't below the bound, or the bound is over 256. `Memory` comes only where a growth of
/// memory was refused. Beside the scan, time is linear in the certificate and in the program's nodes and edges, with the
/// words of a set of classes for each set that is compared.
pub fn check(alloc: Global, meta: Meta, certificate: Certificate) -> Result<Checked, No>
    ensures { Checks meta certificate result }
{
    match examine(alloc, meta, certificate) {
        Ok(checked) => Ok(checked),
        Err(denied) => Err(denied.no()),
    }
}

/// The same, with the program, the certificate and what breaks the condition where the certificate isn't valid.
pub fn examine(alloc: Global, meta: Meta, certificate: Certificate) -> Result<Checked, Denied>
    ensures { Examines meta certificate result }
{
    match judge_scanned(alloc, &meta, &certificate) {
        Ok(scan) => Ok(Checked::new(meta, scan, certificate)),
        Err(cause) => Err(Denied::new(meta, certificate, cause)),
    }
}
