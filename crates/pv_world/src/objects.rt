// Objects: their places, their making and their end.
ghost use Rattle.std.specs.Prelude.{◌≡◌, ◌≤◌, ◌<◌, ◌-◌, ◌≢◌, Some, None, length, codes, OnOk};
ghost use Rattle.pv_script.specs.Names.{name_at as text_of};
ghost use Rattle.pv_inst.specs.Answers.{IsLive};
ghost use Rattle.pv_world.specs.Objects.{instance_of, literal_of, function_of, address_of, owning, bind, makes_object, ends_object, object_request};
ghost use Rattle.pv_world.specs.ObjectParts.{owned_next};
ghost use Rattle.pv_world.specs.Telling.{event_of_making};
ghost use Rattle.pv_watch.specs.declared.event.What.{What};
ghost use Rattle.pv_world.specs.Coming.{no_worth, CameMade, coming_of, DidAndTold, Tells};

use crate::got::Failure;
use crate::telling::{tell, tell_made};
use crate::world::World;
use pv_inst::{CreateError, Kind};
use pv_object::Pointer;
use pv_prov::{NoMemory, Prov};
use pv_script::Names;
use pv_watch::What;

/// Instance number i was made for this object, or for none.
pub(crate) fn own(
    owners: &mut Vec<Option<u32>>,
    i: u64,
    object: Option<u32>,
) -> Result<(), NoMemory>
    requires { 1 ≤ i }
    ensures { OnOk result (owners.new.items ≡ owned_next owners.old.items (i - 1) object) }
{
    for _ in owners.len() as u64..i - 1 {
        owners.push(None)?;
    }
    owners.push(object)?;
    Ok(())
}

impl World {
    // Where an instance begins, as a pointer to it.
    fn address_of(&self, i: u64) -> Pointer
        ensures { result ≡ address_of self.now i }
    {
        Pointer {
            address: self.memory.instances().base(i),
            prov: Prov::Inst(i),
        }
    }

    /// The instance of a literal.
    pub fn literal(&self, literal: u32) -> u64
        ensures { result ≡ literal_of self.now literal }
    {
        self.literals.get(literal).unwrap_or(0)
    }

    /// The instance of an object in scope; 0 where it has none.
    #[inline(always)]
    pub fn instance(&self, object: u32, lasting: bool) -> u64
        ensures { result ≡ instance_of self.now object lasting }
    {
        self.bound_to(object, lasting).unwrap_or(0)
    }

    /// The place of an object in scope (6.5.1p2).
    pub fn object_place(&self, object: u32, lasting: bool) -> Pointer
        ensures { result ≡ address_of self.now (instance_of self.now object lasting) }
    {
        self.address_of(self.instance(object, lasting))
    }

    /// The place of a literal (6.5.1p4).
    pub fn literal_place(&self, literal: u32) -> Pointer
        ensures { result ≡ address_of self.now (literal_of self.now literal) }
    {
        self.address_of(self.literal(literal))
    }

    /// The instance of a function.
    pub fn function(&self, function: u32) -> u64
        ensures { result ≡ function_of self.now function }
    {
        self.functions.get(function).unwrap_or(0)
    }

    /// The place of a function (6.3.2.1p4).
    pub fn function_place(&self, function: u32) -> Pointer
        ensures { result ≡ address_of self.now (function_of self.now function) }
    {
        self.address_of(self.function(function))
    }

    /// An object begins its lifetime (6.2.4): a new instance of this size and alignment, or why there is none.
    #[tactic(auto, using(crate::proofs::Makings::made_ok, crate::proofs::Makings::made_err))]
    pub fn make(
        &mut self,
        names: &Names,
        object: u32,
        lasting: bool,
        name: u32,
        size: u64,
        align: u64,
        constant: bool,
        told: &mut Vec<What>,
    ) -> Result<(), CreateError>
        requires named { name < length names.now }
        requires sized { 1 ≤ size }
        requires aligned { 1 ≤ align }
        requires heap { text_of names.now name ≢ codes "@heap" }
        ensures did { CameMade name result self.new told.new.items (coming_of told.old.items self.old (makes_object object lasting (object_request name (text_of names.now name) size align constant) self.old)) }
    {
        match self
            .memory
            .create(names, name, size, align, Kind::Declared { constant })
        {
            Ok(i) => match self.begun(i, object, lasting, told) {
                Ok(()) => Ok(()),
                Err(NoMemory) => Err(CreateError::NoMemory),
            },
            Err(e) => Err(e),
        }
    }

    // The instance that was made is that of the object, and told of.
    fn begun(
        &mut self,
        i: u64,
        object: u32,
        lasting: bool,
        told: &mut Vec<What>,
    ) -> Result<(), NoMemory>
        requires { IsLive self.old.memory.table.instances i }
        ensures world { OnOk result (self.new ≡ bind (owning self.old self.old.memory i (Some object)) object lasting i) }
        ensures told { OnOk result (Tells told.old told.new (event_of_making self.old.memory.table i)) }
    {
        match own(&mut self.owners, i, Some(object)) {
            Ok(()) => {}
            Err(NoMemory) => return Err(NoMemory),
        }
        match self.bind(object, lasting, i) {
            Ok(()) => tell_made(told, &self.memory, i),
            Err(NoMemory) => Err(NoMemory),
        }
    }

    /// An object ends its lifetime (6.2.4).
    pub fn end(&mut self, object: u32, lasting: bool, told: &mut Vec<What>) -> Result<(), Failure>
        requires { IsLive self.old.memory.table.instances (instance_of self.old object lasting) }
        ensures did { DidAndTold no_worth (ends_object object lasting) result self.old self.new told.old told.new }
    {
        let i = self.instance(object, lasting);
        self.memory.end(i);
        match tell(told, What::Ended { inst: i }) {
            Ok(()) => Ok(()),
            Err(NoMemory) => Err(Failure::NoMemory),
        }
    }
}
