// What is known of a unit's nodes before a run.
ghost use Rattle.std.specs.Prelude.{◌≡◌, slice_index_or};
ghost use Rattle.pv_typed.specs.Known.{AreKnown};
ghost use Rattle.pv_eval.specs.declared.codes.Code.TheVariants as code;
ghost use Rattle.pv_eval.specs.Codes.{AreCodes};

use crate::codes::{Code, code_of};
use pv_tree::NodeId;
use pv_typed::TypedUnit;
use std::alloc::Global;
use std::marker::Model;

/// What is known of the nodes of a unit before it is run: then a node is evaluated without a look at the table of types. Any part
/// of it may be missing.
#[derive(Drop)]
pub struct Plan {
    // by the number of a node
    codes: Vec<Code>,
}

impl Model for Plan {
    ghost use Rattle.std.specs.Prelude.{List};
    ghost use Rattle.pv_eval.specs.declared.codes.Code.{Code};

    ghost Value = { List Code };

    ghost view = { λ p. p.codes.items };
}

impl Plan {
    /// What is known of the unit's nodes, of as many of them as there is memory for.
    pub fn new(alloc: Global, unit: &TypedUnit) -> Plan
        requires { AreKnown unit.now }
        ensures { AreCodes unit.now result }
    {
        let mut codes = Vec::new(alloc);
        for n in 0..u32::MAX {
            if n as usize >= unit.nodes() {
                return Plan { codes };
            }
            let code = code_of(unit, NodeId(n));
            if codes.push(code).is_err() {
                return Plan { codes };
            }
        }
        Plan { codes }
    }

    /// What is known of a node.
    #[inline(always)]
    pub(crate) fn code(&self, n: NodeId) -> Code
        ensures { result ≡ slice_index_or self.now n.0 code.Unknown }
    {
        match self.codes.get(n.0 as usize) {
            Some(code) => *code,
            None => Code::Unknown,
        }
    }
}
