//! What is known of instances and pairs when a text is made.
ghost use Rattle.std.specs.Prelude.{◌≡◌, IfOk};
ghost use Rattle.pv_watch.specs.Lines.{first_told, making_of, making_of_pair};

use crate::makings::{makings, pairs};
use indexmap::IndexMap;
use pv_script::Names;
use pv_watch::{Event, NoMemory};
use std::alloc::Global;
use std::marker::Model;

/// The events seen, the texts of names, and who was made when.
#[derive(Drop)]
pub(crate) struct Known<'a> {
    pub(crate) alloc: Global,
    pub(crate) seen: &'a [Event],
    pub(crate) names: &'a Names,
    makings: IndexMap<u64, (u32, u64)>,
    pairs: IndexMap<u64, (u64, u64)>,
}

impl<'a> Model for Known<'a> {
    ghost use Rattle.std.specs.Prelude.{◌≡◌, ℕ, nat_eq};
    ghost use Rattle.indexmap.specs.IndexMap.{get};
    ghost use Rattle.pv_watch.specs.Lines.{first_told, making_of, making_of_pair};
    ghost use Rattle.pv_explain.specs.Told.{Told};

    ghost Value = { Told };

    ghost view = { λ k. record { seen = k.seen.now; names = k.names.now } };

    ghost invariant = { λ k. ((i : ℕ) → get nat_eq k.makings i ≡ first_told (making_of i) k.seen.now) × ((p : ℕ) → get nat_eq k.pairs p ≡ first_told (making_of_pair p) k.seen.now) };
}

impl<'a> Known<'a> {
    /// What these events tell.
    pub(crate) fn new(
        alloc: Global,
        seen: &'a [Event],
        names: &'a Names,
    ) -> Result<Known<'a>, NoMemory>
        ensures { IfOk result (λ k. k ≡ record { seen = seen.now; names = names.now }) }
    {
        let makings = makings(alloc, seen)?;
        let pairs = pairs(alloc, seen)?;
        Ok(Known {
            alloc,
            seen,
            names,
            makings,
            pairs,
        })
    }

    /// The number of an instance's name, and which of this name it is, where its making was told.
    pub(crate) fn making(&self, i: u64) -> Option<(u32, u64)>
        ensures { result ≡ first_told (making_of i) self.now.seen }
    {
        self.makings.get(&i).copied()
    }

    /// A pair's low and high candidate, where its making was told.
    pub(crate) fn candidates(&self, pair: u64) -> Option<(u64, u64)>
        ensures { result ≡ first_told (making_of_pair pair) self.now.seen }
    {
        self.pairs.get(&pair).copied()
    }
}
