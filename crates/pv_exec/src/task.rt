// What waits for the end of a statement or for the value of an expression, and what is done now.
use crate::parts::RoundParts;
use pv_eval::Kept;
use pv_tree::{ListId, NodeId};

/// How a statement is left (C17 6.8.6).
#[derive(Drop)]
pub enum Flow {
    /// By its end: the next statement is executed (C17 6.8p3).
    Falls,
    /// By `break` (C17 6.8.6.3).
    Breaks,
    /// By `continue` (C17 6.8.6.2).
    Continues,
    /// By `return` with this value (C17 6.8.6.4), behind a pointer, since what is done is moved at each operation.
    Returns(Kept),
}

/// What waits, by the number of its statement.
#[derive(Clone, Copy)]
pub enum Task {
    /// The statements of a list from this place on.
    InList(ListId, usize),
    /// A block whose objects were made.
    InBlock(NodeId),
    /// The body of a `switch` (C17 6.8.4.2).
    InSwitch,
    /// An expression statement.
    Dropping,
    /// An `if`, at its condition.
    Chosen(NodeId),
    /// A `for`, at its first expression.
    First(NodeId),
    /// A `for`, at its declarations.
    Declared(NodeId),
    /// A loop, at its condition.
    Tested(NodeId),
    /// A loop, in its body.
    Rounded(NodeId),
    /// A loop, at its last expression.
    Stepped(NodeId),
    /// A `do`, in its body.
    RoundedDo(NodeId),
    /// A `do`, at its condition.
    TestedDo(NodeId),
    /// A `switch`, at its expression.
    Selecting(NodeId),
    /// A `return`, at its expression.
    Returning(NodeId),
    /// A store of an initializer: the object, and which one.
    Storing(u32, usize),
    /// The body of a function, whose call stands in this line.
    InCall(u32, u32),
}

/// What is done now.
#[derive(Drop)]
pub enum Doing {
    /// A statement begins.
    Enter(NodeId),
    /// A block of a `switch`, from a statement of its list on.
    Jump(NodeId, ListId, usize),
    /// The statements of a list from this place on.
    Statements(ListId, usize),
    /// What stands within a `for` with a declaration.
    Within(NodeId),
    /// A loop from its last expression on, which is this one.
    Again(NodeId, RoundParts),
    /// A further round of a loop, from its condition on.
    Round(RoundParts),
    /// A loop from its body on.
    Body(RoundParts),
    /// The stores of an object's initializer: the object, and from which one on.
    Store(u32, usize),
    /// The body of a function that has none.
    Absent,
    /// A statement was left so.
    Left(Flow),
    /// The call of this function that the innermost expression hands up.
    Call(u32),
    /// The innermost expression goes on.
    Evaluate,
    /// The innermost expression has ended, with its value.
    Evaluated,
}

/// What an operation leads to.
#[derive(Drop)]
pub enum Way {
    /// This is done next.
    Do(Doing),
    /// This is done next, and the task waits for its end.
    With(Task, Doing),
}
