//! Proofs: tags that prove a program.

use sf_precise::Arranged;
use sf_sym::Tag;
use std::marker::Model;

/// A program with tags that prove it. It keeps that they do, without telling by which function its
/// annotations are put in order, and `proves` gives that back. `check` makes it. Contracts see it as
/// the record `Accepted`.
#[derive(Debug, Drop)]
pub struct Proof<'a> {
    pub(crate) arranged: &'a Arranged,
    pub(crate) tags: Vec<Tag>,
}

impl<'a> Model for Proof<'a> {
    ghost use Rattle.sf_check.specs.Accepted.{Accepted};
    ghost use Rattle.sf_precise.specs.contracts.arranged.Arranged as whole;
    ghost use Rattle.std.specs.Coded.{codes};

    ghost Value = { Accepted };

    ghost coded = { Prim.hlevel (codes, whole.the_row.coded) };

    ghost use Rattle.sf_check.specs.Proven.{Proven};

    ghost view = { λ s. record { arranged = s.arranged.now; tags = s.tags.items } };

    ghost invariant = { λ s. ∥ Proven s.arranged.now s.tags.items ∥₁ };
}
