//! Objects and functions with declarations at file scope, in the order of their first ones (C17 6.9).
ghost use Rattle.std.specs.Prelude.{◌≡◌, ◌<◌, ◌||◌, ◌++◌, ◌∷◌, [], true, false, length, map, slice_index_or, IfSome, OnErr, OnOk};
ghost use Rattle.pv_check.specs.Scopes.{find};
ghost use Rattle.pv_unit.specs.Redeclarations.{entity, entities_after, is_initialized};
ghost use Rattle.pv_unit.specs.Entering.{entity_of, no_entity};
ghost use Rattle.pv_unit.specs.Places.{Keeps, defined_in, first_in, initialized_in, noted_in};
ghost use Rattle.pv_unit.specs.Definitions.{is_defined};

use indexmap::IndexMap;
use pv_types::NoMemory;
use std::alloc::Global;
use std::marker::Model;

/// An object or a function, and what its declarations say of it.
#[derive(Clone, Copy)]
pub(crate) struct Entity {
    /// The number of its name in the source.
    pub(crate) name: u32,
    pub(crate) function: bool,
    /// Its number among the objects, or the functions.
    pub(crate) number: u32,
    pub(crate) defined: bool,
    /// Whether it has an initializer or a body.
    pub(crate) initialized: bool,
    /// Whether a declaration has an array of no size.
    pub(crate) without_size: bool,
}

/// All of them, and where the objects and the functions stand, by their numbers.
#[derive(Drop)]
pub(crate) struct Entities {
    all: Vec<Entity>,
    objects: IndexMap<u32, usize>,
    functions: IndexMap<u32, usize>,
}

impl Model for Entities {
    ghost use Rattle.std.specs.Prelude.{List, map, true, false};
    ghost use Rattle.pv_unit.specs.Redeclarations.{Entity as WholeEntity};
    ghost use Rattle.pv_unit.specs.Entering.{entity_of};
    ghost use Rattle.pv_unit.specs.Places.{ArePlaced};

    ghost Value = { List WholeEntity };

    ghost view = { λ e. map entity_of e.all.items };

    ghost invariant = { λ e. ArePlaced false (map entity_of e.all.items) e.objects.entries × ArePlaced true (map entity_of e.all.items) e.functions.entries };
}

/// What is known of the declarations at file scope, beside scopes and tables.
#[derive(Drop)]
pub(crate) struct Outer {
    pub(crate) entities: Entities,
    /// Whether a typedef has an array of no size.
    pub(crate) unsized_typedef: bool,
}

/// The one at a place.
fn entity_at(all: &[Entity], p: usize) -> Entity
    requires { p < length all.now }
    ensures { result ≡ slice_index_or all.now p no_entity }
{
    all[p]
}

/// The place that is kept for a number.
fn place_in(places: &IndexMap<u32, usize>, number: u32) -> Option<usize>
    ensures { result ≡ find places.now.entries number }
{
    places.get(&number).copied()
}

/// Keeps a place for a number, if there is none.
fn keep(places: &mut IndexMap<u32, usize>, number: u32, p: usize) -> Result<(), NoMemory>
    ensures kept { OnOk result (Keeps number p places.old.entries places.new.entries) }
    ensures unchanged { OnErr result (places.new.entries ≡ places.old.entries) }
{
    if place_in(places, number).is_none() {
        places.insert(number, p)?;
    }
    Ok(())
}

/// With what one declaration more says.
fn noted(e: Entity, defined: bool, initialized: bool, without_size: bool) -> Entity
    ensures { entity_of result ≡ record (entity_of e) { defined = e.defined || defined; initialized = e.initialized || initialized; unsized = e.without_size || without_size } }
{
    Entity {
        name: e.name,
        function: e.function,
        number: e.number,
        defined: e.defined || defined,
        initialized: e.initialized || initialized,
        without_size: e.without_size || without_size,
    }
}

/// Notes what one declaration more says of the one at the place.
fn note_at(
    all: &mut [Entity],
    place: Option<usize>,
    defined: bool,
    initialized: bool,
    without_size: bool,
)
    requires { IfSome place (λ p. p < length all.old) }
    ensures { map entity_of all.new ≡ noted_in place defined initialized without_size (map entity_of all.old) }
{
    if let Some(p) = place {
        let before = entity_at(all, p);
        all[p] = noted(before, defined, initialized, without_size);
    }
}

/// Whether the one at the place has an initializer or a body.
fn initialized_at(all: &[Entity], place: Option<usize>) -> bool
    requires { IfSome place (λ p. p < length all.now) }
    ensures { result ≡ initialized_in place (map entity_of all.now) }
{
    match place {
        Some(p) => entity_at(all, p).initialized,
        None => false,
    }
}

/// Whether the object at the place is defined; one that has none is of a block, where it is declared.
fn defined_at(all: &[Entity], place: Option<usize>) -> bool
    requires { IfSome place (λ p. p < length all.now) }
    ensures { result ≡ defined_in place (map entity_of all.now) }
{
    match place {
        Some(p) => entity_at(all, p).defined,
        None => true,
    }
}

impl Entities {
    /// None.
    pub(crate) fn new(alloc: Global) -> Entities
        ensures { result ≡ [] }
    {
        Entities {
            all: Vec::new(alloc),
            objects: IndexMap::new(alloc),
            functions: IndexMap::new(alloc),
        }
    }

    /// How many there are.
    pub(crate) fn len(&self) -> usize
        ensures { result ≡ length self.now }
    {
        self.all.len()
    }

    /// One of them.
    pub(crate) fn at(&self, i: usize) -> Entity
        requires { i < length self.now }
        ensures { entity_of result ≡ slice_index_or self.now i (entity_of no_entity) }
    {
        self.all[i]
    }

    /// Where the first one of this kind and number stands.
    fn place(&self, function: bool, number: u32) -> Option<usize>
        ensures { result ≡ first_in function number self.now }
    {
        if function {
            place_in(&self.functions, number)
        } else {
            place_in(&self.objects, number)
        }
    }

    /// One function more.
    fn add_function(&mut self, name: u32, number: u32) -> Result<(), NoMemory>
        ensures { OnOk result (self.new ≡ self.old ++ (entity name true number ∷ [])) }
    {
        self.all.reserve(1)?;
        let p = self.all.len();
        keep(&mut self.functions, number, p)?;
        self.all.push_reserved(Entity {
            name,
            function: true,
            number,
            defined: false,
            initialized: false,
            without_size: false,
        });
        Ok(())
    }

    /// One object more.
    fn add_object(&mut self, name: u32, number: u32) -> Result<(), NoMemory>
        ensures { OnOk result (self.new ≡ self.old ++ (entity name false number ∷ [])) }
    {
        self.all.reserve(1)?;
        let p = self.all.len();
        keep(&mut self.objects, number, p)?;
        self.all.push_reserved(Entity {
            name,
            function: false,
            number,
            defined: false,
            initialized: false,
            without_size: false,
        });
        Ok(())
    }

    /// One more.
    pub(crate) fn add(&mut self, name: u32, function: bool, number: u32) -> Result<(), NoMemory>
        ensures { OnOk result (self.new ≡ self.old ++ (entity name function number ∷ [])) }
    {
        if function {
            self.add_function(name, number)
        } else {
            self.add_object(name, number)
        }
    }

    /// Notes what one declaration more says of the one of this kind and number.
    pub(crate) fn note(
        &mut self,
        function: bool,
        number: u32,
        defined: bool,
        initialized: bool,
        without_size: bool,
    )
        ensures { self.new ≡ entities_after function number defined initialized without_size self.old }
    {
        let place = self.place(function, number);
        note_at(
            self.all.as_mut_slice(),
            place,
            defined,
            initialized,
            without_size,
        );
    }

    /// Whether the one of this kind and number has an initializer or a body.
    pub(crate) fn is_initialized(&self, function: bool, number: u32) -> bool
        ensures { result ≡ is_initialized function number self.now }
    {
        let place = self.place(function, number);
        initialized_at(self.all.as_slice(), place)
    }

    /// Whether the object of this number is defined; one of a block is where it is declared.
    pub(crate) fn is_defined(&self, number: u32) -> bool
        ensures { result ≡ is_defined number self.now }
    {
        let place = self.place(false, number);
        defined_at(self.all.as_slice(), place)
    }
}
