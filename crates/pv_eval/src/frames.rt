// Nodes that wait for the value of an operand, and where an operation leads.
ghost use Rattle.std.specs.Prelude.{◌≡◌, IfOk};
ghost use Rattle.pv_eval.specs.Moments.{IsMemory};

use crate::failure::Failure;
use pv_tree::NodeId;
use pv_world::Got;
use std::alloc::Global;
use std::marker::Model;

/// Which operand a node waits for, and what it has so far.
#[derive(Drop)]
pub enum Stage {
    /// The first one.
    First,
    /// The second one, beside the value of the first.
    Second(Got),
    /// The second one, beside a place and the value that was read there.
    Both(Aside),
    /// One after a sequence point: of a conditional the second, or the third.
    Later(bool),
    /// An argument, beside those before it.
    Argument(Vec<Got>),
}

/// A place, and the value that was read there.
#[derive(Drop)]
pub struct ReadPlace {
    pub place: Got,
    pub value: Got,
}

/// The same behind a pointer, so that nodes that wait are small: they are moved at each operation.
#[derive(Drop)]
pub struct Aside {
    read: Box<ReadPlace>,
}

impl Model for Aside {
    ghost use Rattle.pv_eval.specs.declared.frames.ReadPlace.{ReadPlace};

    ghost Value = { ReadPlace };

    ghost view = { λ a. a.read.value };
}

impl Aside {
    /// What was read is laid aside, if there is memory.
    pub(crate) fn new(alloc: Global, read: ReadPlace) -> Result<Aside, Failure>
        ensures value { IfOk result (λ a. a ≡ read) }
        ensures memory { IsMemory result }
    {
        match Box::new(alloc, read) {
            Ok(read) => Ok(Aside { read }),
            Err(_) => Err(Failure::NoMemory),
        }
    }

    /// What was laid aside.
    pub(crate) fn take(self) -> ReadPlace
        ensures { result ≡ self }
    {
        Box::into_inner(self.read)
    }
}

/// A node that waits.
#[derive(Drop)]
pub struct Frame {
    pub node: NodeId,
    pub stage: Stage,
}

/// What an operation leads to: the node's value, an operand beside the ones before it, or one after a sequence point.
#[derive(Drop)]
pub enum Move {
    Give(Got),
    Operand(NodeId, Frame),
    Later(NodeId, Frame),
    /// A call of a function of the program, with its arguments, in this line.
    Ask(u32, Vec<Got>, u32),
}

/// Where an expression is: before a node, or after one.
#[derive(Drop)]
pub enum Now {
    Due(NodeId),
    Value(Got),
    Asked(u32, Vec<Got>, u32),
}

/// What a step of the machine leads to.
#[derive(Clone, Copy)]
pub enum Step {
    /// A turn is due next.
    More,
    /// The innermost expression has ended.
    Done,
    /// A function of the program is to be called.
    Call(u32),
}
