//! The lists of numbers of nodes.
ghost use Rattle.std.specs.Prelude.{◌≡◌, ◌≤◌, ◌<◌, ◌++◌, ◌∷◌, [], length, slice_index_or, slice_range, OnOk, OnErr};

use crate::nodes::NodeId;
use pv_token::NoMemory;
use std::alloc::Global;
use std::marker::Model;

/// A table numbered by `u32` has room for so many entries.
pub(crate) const LIMIT: usize = 0xffff_ffff;

/// Where a list stands among the numbers of all lists: from `start` to before `end`, from 0.
#[derive(Clone, Copy)]
pub(crate) struct Span {
    start: u32,
    end: u32,
}

/// Lists of numbers of nodes, numbered from 0, which stay as they were added. The numbers of all stand in one row, so
/// that a list takes 8 bytes, and 4 for each of its numbers.
#[derive(Drop)]
pub(crate) struct Lists {
    numbers: Vec<NodeId>,
    spans: Vec<Span>,
}

/// The numbers of a list among those of all.
fn part(numbers: &[NodeId], span: Span) -> &[NodeId]
    requires order { span.start ≤ span.end }
    requires within { span.end ≤ length numbers.now }
    ensures { result.now ≡ slice_range numbers.now span.start span.end }
{
    &numbers[span.start as usize..span.end as usize]
}

impl Model for Lists {
    ghost use Rattle.std.specs.Prelude.{List, map};
    ghost use Rattle.pv_tree.specs.declared.nodes.NodeId.{NodeId};
    ghost use Rattle.pv_tree.specs.Spans.{list_of, AreSpans};

    ghost Value = { List (List NodeId) };

    ghost view = { λ x. map (list_of x.numbers.items) x.spans.items };

    ghost invariant = { λ x. AreSpans x.numbers.items x.spans.items };
}

impl Lists {
    /// No lists, which take no memory.
    pub fn new(alloc: Global) -> Lists
        ensures { result ≡ [] }
    {
        Lists {
            numbers: Vec::new(alloc),
            spans: Vec::new(alloc),
        }
    }

    /// How many there are.
    pub fn len(&self) -> usize
        ensures { result ≡ length self.now }
    {
        self.spans.len()
    }

    /// The list of a number.
    pub fn at(&self, i: u32) -> &[NodeId]
        requires { i < length self.now }
        ensures { result.now ≡ slice_index_or self.now i [] }
    {
        let span = self.spans[i as usize];
        part(self.numbers.as_slice(), span)
    }

    /// Keeps one more list. The only error is want of memory, or of room for the numbers, and changes nothing. How long the
    /// list is, is often known where this is called.
    #[inline(always)]
    pub fn add(&mut self, list: &[NodeId]) -> Result<(), NoMemory>
        ensures added { OnOk result (self.new ≡ self.old ++ (list.now ∷ [])) }
        ensures unchanged { OnErr result (self.new ≡ self.old) }
    {
        let start = self.numbers.len();
        if list.len() > LIMIT - start {
            return Err(NoMemory);
        }
        self.spans.reserve(1)?;
        self.numbers.extend_from_slice(list)?;
        self.spans.push_reserved(Span {
            start: start as u32,
            end: (start + list.len()) as u32,
        });
        Ok(())
    }

    /// Keeps one more list, of one number. The only error is want of memory, or of room for the number, and changes nothing.
    #[inline(always)]
    pub fn add_one(&mut self, number: NodeId) -> Result<(), NoMemory>
        ensures added { OnOk result (self.new ≡ self.old ++ ((number ∷ []) ∷ [])) }
        ensures unchanged { OnErr result (self.new ≡ self.old) }
    {
        let first = self.numbers.len();
        if first >= LIMIT {
            return Err(NoMemory);
        }
        self.spans.reserve(1)?;
        self.numbers.push(number)?;
        self.spans.push_reserved(Span {
            start: first as u32,
            end: (first + 1) as u32,
        });
        Ok(())
    }
}
