// The lines of a script, found by name and count.
ghost use Rattle.std.specs.Prelude.{◌≡◌, [], ◌∷◌, ◌++◌, OnOk, None};
ghost use Rattle.std.specs.Option.{option_map};
ghost use Rattle.pv_script.specs.Numbered.{numbered_line};
ghost use Rattle.pv_script.specs.Indexed.{line_for};

use crate::NoMemory;
use crate::names::Names;
use crate::script::Line;
use std::alloc::Global;
use std::collections::BTreeMap;
use std::marker::Model;

/// The lines that say a place, seen as a list. No two are for one name and one count.
#[derive(Drop)]
pub(crate) struct Lines {
    names: Names,
    lines: Vec<Line>,
    // where each line stands, by the number of its name and its count
    places: BTreeMap<(u32, u64), u64>,
}

impl Model for Lines {
    ghost use Rattle.std.specs.Prelude.{List, map};
    ghost use Rattle.pv_script.specs.Scripts.{NumberedLine};
    ghost use Rattle.pv_script.specs.Numbered.{numbered_line};
    ghost use Rattle.pv_script.specs.Indexed.{IsIndexed};

    ghost Value = { List NumberedLine };

    ghost view = { λ s. map numbered_line s.lines.items };

    ghost invariant = { λ s. IsIndexed s.names s.lines.items s.places.entries };
}

impl Lines {
    /// No line.
    pub(crate) fn new(alloc: Global) -> Self
        ensures { result ≡ [] }
    {
        Lines {
            names: Names::new(alloc),
            lines: Vec::new(alloc),
            places: BTreeMap::new(alloc),
        }
    }

    /// The line for a name and a count. Most runs have no script, and then no name is looked for.
    pub(crate) fn find(&self, name: &[u8], k: u64) -> Option<&Line>
        ensures { option_map (λ l. numbered_line l.now) result ≡ line_for self.now name.now k }
    {
        if self.lines.is_empty() {
            return None;
        }
        let number = self.names.find(name)?;
        match self.places.get(&(number, k)) {
            Some(i) => Some(&self.lines[*i as usize]),
            None => None,
        }
    }

    /// One line more, for a name and a count that no line has.
    pub(crate) fn push(&mut self, line: Line) -> Result<(), NoMemory>
        requires { line_for self.old line.name.items line.k ≡ None }
        ensures { OnOk result (self.new ≡ self.old ++ numbered_line line ∷ []) }
    {
        let number = self.names.add(&line.name)?;
        self.lines.reserve(1)?;
        let at = self.lines.len() as u64;
        self.places.insert((number, line.k), at)?;
        self.lines.push_reserved(Line {
            name: line.name,
            number,
            k: line.k,
            place: line.place,
            at: line.at,
        });
        Ok(())
    }
}
