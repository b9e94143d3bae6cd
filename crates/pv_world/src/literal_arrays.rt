// The arrays of string literals (6.4.5p6).
ghost use Rattle.std.specs.Prelude.{◌≡◌, ◌≤◌, ◌<◌, ◌-◌, ◌≢◌, Some, None, length, codes, OnOk, IfOk};
ghost use Rattle.pv_script.specs.Names.{name_at as text_of};
ghost use Rattle.pv_shadow.specs.Whole.{number_bytes};
ghost use Rattle.pv_object.specs.Answers.{HasSize};
ghost use Rattle.pv_inst.specs.Answers.{IsLive};
ghost use Rattle.pv_world.specs.Objects.{owning, bind, makes_literal_of, literal_bound, with_characters};
ghost use Rattle.pv_world.specs.Telling.{event_of_making};
ghost use Rattle.pv_watch.specs.declared.event.What.{What};
ghost use Rattle.pv_world.specs.Coming.{CameMade, coming_of, Tells};

use crate::objects::own;
use crate::telling::tell_made;
use crate::world::World;
use pv_inst::{CreateError, Kind};
use pv_prov::{NoMemory, Prov};
use pv_script::Names;
use pv_shadow::Byte;
use pv_watch::What;
use std::alloc::Global;

/// Characters as bytes without a mark.
pub fn characters(alloc: Global, bytes: &[u8]) -> Result<Vec<Byte>, NoMemory>
    ensures bytes { IfOk result (λ v. v.items ≡ number_bytes None 0 bytes.now) }
    ensures long { IfOk result (λ v. length v.items ≡ length bytes.now) }
{
    let mut all = Vec::new(alloc);
    for i in 0..bytes.len() {
        all.push(Byte {
            value: Some(bytes[i]),
            prov: Prov::Empty,
            index: None,
            mark: None,
        })?;
    }
    Ok(all)
}

impl World {
    /// A literal's array (6.4.5p6): a new instance with these bytes, or why there is none.
    #[tactic(auto, using(crate::proofs::Literals::literal_ok, crate::proofs::Literals::literal_err))]
    pub fn make_literal(
        &mut self,
        names: &Names,
        literal: u32,
        bytes: &[u8],
        told: &mut Vec<What>,
    ) -> Result<(), CreateError>
        requires named { 0 < length names.now }
        requires sized { 1 ≤ length bytes.now }
        requires heap { text_of names.now 0 ≢ codes "@heap" }
        ensures did { CameMade 0 result self.new told.new.items (coming_of told.old.items self.old (makes_literal_of literal (text_of names.now 0) bytes.now self.old)) }
    {
        match self
            .memory
            .create(names, 0, bytes.len() as u64, 1, Kind::Literal)
        {
            Ok(i) => match self.literal_begun(i, literal, bytes, told) {
                Ok(()) => Ok(()),
                Err(NoMemory) => Err(CreateError::NoMemory),
            },
            Err(e) => Err(e),
        }
    }

    // The instance that was made is that of the literal, has its bytes, and is told of.
    #[tactic(auto, using(crate::proofs::Literals::room_of))]
    fn literal_begun(
        &mut self,
        i: u64,
        literal: u32,
        bytes: &[u8],
        told: &mut Vec<What>,
    ) -> Result<(), NoMemory>
        requires live { IsLive self.old.memory.table.instances i }
        requires sized { HasSize self.old.memory.table.instances i (length bytes.now) }
        ensures world { OnOk result (self.new ≡ with_characters (literal_bound (owning self.old self.old.memory i None) literal i) i bytes.now) }
        ensures told { OnOk result (Tells told.old told.new (event_of_making self.old.memory.table i)) }
    {
        let characters = match characters(self.alloc, bytes) {
            Ok(characters) => characters,
            Err(NoMemory) => return Err(NoMemory),
        };
        match own(&mut self.owners, i, None) {
            Ok(()) => {}
            Err(NoMemory) => return Err(NoMemory),
        }
        match self.literals.bind(literal, i) {
            Ok(()) => {}
            Err(NoMemory) => return Err(NoMemory),
        }
        self.put_in(i, 0, &characters);
        tell_made(told, &self.memory, i)
    }
}
