//! Lists of parameters that are known before they are read.
ghost use Rattle.std.specs.Prelude.{◌≡◌, ◌≤◌, ◌<◌, ◌+◌, ℕ, [], IfSome, OnOk, Some, length};
ghost use Rattle.pv_tree.specs.Tables.{optional_at, is_declarator, Is};
ghost use Rattle.pv_decl_forms.specs.Declarators.{parameters_behind};
ghost use Rattle.pv_decl.specs.Filled.{list_map};
ghost use Rattle.pv_decl_forms.specs.Sources.{Reads};
ghost use Rattle.pv_decl_forms.specs.Parts.{function_of};
ghost use Rattle.pv_decl_forms.specs.Reader.{readers};
ghost use Rattle.pv_decl.specs.Sources.{IsReady};

use crate::declarations::Declarations;
use crate::sparse::Sparse;
use pv_decl_forms::{found_declarator, function_node};
use pv_token::NoMemory;
use pv_tree::{Declarator, NodeId, TypeReader, Unit};
use std::alloc::Global;

/// The lists of parameters that begin at places behind a `(` (C17 6.7.6.3).
#[derive(Drop)]
pub(crate) struct ParameterLists {
    /// The place behind the last one.
    pub(crate) to: u32,
    /// What is known of each place, from the last back to the first of which anything is: the longest
    /// list of at most 500 levels of nesting that begins there, as an abstract declarator, or that none
    /// does.
    pub(crate) found: Sparse<Option<(NodeId, u32)>>,
}

impl ParameterLists {
    /// Nothing, before a place.
    pub(crate) fn new(alloc: Global, to: u32) -> ParameterLists
        ensures to { result.to ≡ to }
        ensures items { result.found ≡ [] }
    {
        ParameterLists {
            to,
            found: Sparse::new(alloc),
        }
    }

    /// Keeps what is known of a place that stands before all that are kept. Nothing is known of most
    /// places, and they take no memory until something is known of one before them.
    pub(crate) fn note(
        &mut self,
        at: u32,
        list: Option<Option<(NodeId, u32)>>,
    ) -> Result<(), NoMemory>
        requires { at + length self.old.found < self.old.to }
        ensures to { OnOk result (self.new.to ≡ self.old.to) }
        ensures before { OnOk result (at + length self.new.found ≤ self.new.to) }
        ensures here { OnOk result (list_map self.new at ≡ list) }
        ensures behind { OnOk result ((p : ℕ) → at < p → list_map self.new p ≡ list_map self.old p) }
    {
        let Some(known) = list else {
            return Ok(());
        };
        self.found.fill((self.to - 1 - at) as usize)?;
        self.found.push(Some(known))?;
        Ok(())
    }

    /// What is known of a place.
    pub(crate) fn at(&self, at: u32) -> Option<Option<(NodeId, u32)>>
        ensures { result ≡ list_map self.now at }
    {
        if at >= self.to {
            return None;
        }
        let back = (self.to - 1 - at) as usize;
        if back < self.found.len() {
            self.found.at(back)
        } else {
            None
        }
    }
}

impl<R: TypeReader> Declarations<'_, R> {
    /// Parameters behind a declarator that may be left out, from behind the `(` on, where it is
    /// known which list of them begins there, if any (C17 6.7.6.3).
    ///
    /// The list is known for the greatest depth: where it is too deep here, no other one fits.
    pub(crate) fn known_parameters(
        &self,
        at: u32,
        list: Option<(NodeId, u32)>,
        left: Option<NodeId>,
        line: u32,
        below: u32,
        into: &mut Unit,
    ) -> Result<Option<(NodeId, u32)>, NoMemory>
        requires ready { IsReady R.types self.now into.old at }
        requires list { list_map self.now.lists.now at ≡ Some list }
        requires left { IfSome left (λ n. Is into.old is_declarator n) }
        requires shallow { below ≤ 500 }
        ensures { Reads R.types self.now.source at into.old into.new is_declarator result (λ names. parameters_behind (function_of line (optional_at into.old.forest left)) (readers names below)) }
    {
        let Some((known, end)) = list else {
            return Ok(None);
        };
        if into.depth(known) > below + 1 {
            return Ok(None);
        }
        let Declarator::AbstractFunction {
            parameters,
            variadic,
            ..
        } = into.declarator(known)
        else {
            return Ok(None);
        };
        let function = function_node(into, left, parameters, variadic);
        found_declarator(self.source.tokens, end, function, line, into)
    }
}
