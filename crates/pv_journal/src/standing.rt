// What the lines of a journal leave, and what a next one does to it.
ghost use Rattle.std.specs.Prelude.{◌≡◌, ◌<◌, ◌^◌, List, ℕ, IfOk};
ghost use Rattle.pv_journal.specs.Obeying.{at_first, after_fact};
ghost use Rattle.pv_journal.specs.Views.{row_of};
ghost use Rattle.pv_journal.specs.Lines.{fact_under};
ghost use Rattle.pv_journal.specs.Keyed.{may_follow};
ghost use Rattle.pv_journal.specs.Standing.{IsKnown, IsSaidKnown, IsMore, Leaves, Passes, Takes, state_under};

use crate::bonds::Bonds;
use crate::held::Instances;
use crate::line::{Line, Said};
use crate::numbering::numbered;
use crate::reading::{Read, said};
use pv_script::{Names, NoMemory, is_name};
use std::alloc::Global;

/// The instances and the pairs, the turn of the last line, and whether that was a fault.
#[derive(Drop)]
pub(crate) struct Standing {
    pub(crate) held: Instances,
    pub(crate) bonds: Bonds,
    pub(crate) turn: u64,
    pub(crate) over: bool,
}

// A number of the machine fits its type. Nothing is done here.
fn is_word(n: u64)
    ensures { n < 2 ^ 64 }
{}

impl Standing {
    /// What no lines leave. It takes no memory.
    pub(crate) fn new(alloc: Global) -> Self
        ensures first { (names : List (List ℕ)) → state_under names result ≡ at_first }
        ensures known { (names : List (List ℕ)) → IsKnown names result }
    {
        Standing {
            held: Instances::new(alloc),
            bonds: Bonds::new(alloc),
            turn: 0,
            over: false,
        }
    }

    /// What a line says is done, if it passes.
    fn change(&mut self, names: &Names, what: Said) -> Result<bool, NoMemory>
        requires known { IsKnown names.now self.old }
        requires said { IsSaidKnown names.now what }
        ensures { IfOk result (λ b. Leaves names.now b self.new (after_fact (state_under names.now self.old) (fact_under names.now what))) }
    {
        match what {
            Said::Made { key, base, size } => {
                is_word(key.k);
                let valid = is_name(names.text(key.name));
                self.held.make(valid, key, base, size)
            }
            Said::Ended { key } => Ok(self.held.end(key)),
            Said::Exposed { key } => Ok(self.held.expose(key)),
            Said::Pair {
                pair,
                address,
                low,
                high,
            } => self.bonds.pair(&self.held, pair, address, low, high),
            Said::Used {
                pair,
                test,
                first,
                second,
            } => Ok(
                self.bonds
                    .use_of(&self.held, names, pair, test, first, second),
            ),
            Said::Fault => {
                self.over = true;
                Ok(true)
            }
        }
    }

    /// Whether a line with so many turns may follow: turns never fall, and nothing follows a fault.
    fn may_follow(&self, turn: u64) -> bool
        ensures { result ≡ may_follow self.now.over self.now.turn turn }
    {
        !self.over && self.turn <= turn
    }

    /// A row, if it passes.
    fn pass(&mut self, names: &mut Names, read: &Read) -> Result<Option<Line>, NoMemory>
        requires { IsKnown names.old self.old }
        ensures passes { IfOk result (Passes (state_under names.old self.old) (row_of read.now) names.new self.new) }
        ensures more { IsMore names.old names.new }
    {
        is_word(read.turn);
        if !self.may_follow(read.turn) {
            return Ok(None);
        }
        let what = numbered(names, &read.told)?;
        self.turn = read.turn;
        if self.change(names, what)? {
            Ok(Some(Line {
                turn: read.turn,
                what,
            }))
        } else {
            Ok(None)
        }
    }

    /// The next line, if the text is one that passes.
    pub(crate) fn take(
        &mut self,
        alloc: Global,
        names: &mut Names,
        text: &[u8],
    ) -> Result<Option<Line>, NoMemory>
        requires { IsKnown names.old self.old }
        ensures takes { IfOk result (Takes (state_under names.old self.old) text.now names.new self.new) }
        ensures more { IsMore names.old names.new }
    {
        match said(alloc, text)? {
            Some(read) => self.pass(names, &read),
            None => Ok(None),
        }
    }
}
