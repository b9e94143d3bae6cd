// The memory: its instances, accesses to them, and the steps that change its table.
ghost use Rattle.std.specs.Prelude.{◌≡◌, ◌+◌, ◌<◌, ◌≤◌, ◌↔◌, ◌^◌, length, replicate, take, All, IfOk, IfSome, IfNone, OnOk, OnErr, true, codes, option_to_list, drop, ◌++◌, [], not};
ghost use Rattle.pv_prov.specs.declared.names.Prov.{Prov};
ghost use Rattle.pv_prov.specs.Names.{after_narrowing};
ghost use Rattle.pv_prov.specs.Made.{Stands_low, Stands_high};
ghost use Rattle.pv_script.specs.Names.{name_at as text_of};
ghost use Rattle.pv_inst.specs.Table.{IsMadeIn};
ghost use Rattle.pv_inst.specs.Use.{use_answer, after_use, is_heap};
ghost use Rattle.pv_inst.specs.TwoPointers.{same_answer, after_same};
ghost use Rattle.pv_inst.specs.Answers.{IsLive};
ghost use Rattle.pv_inst.specs.Exposure.{expose};
ghost use Rattle.pv_inst.specs.Finding.{name_at, after_name};
ghost use Rattle.pv_shadow.specs.Bytes.{bytes_from};
ghost use Rattle.pv_shadow.specs.Readings.{HasBytes, nameless_number, HasDigits, are_marked};
ghost use Rattle.pv_object.specs.Memory.{Mem, with_table, empty_memory};
ghost use Rattle.pv_object.specs.Reaching.{IsReach};
ghost use Rattle.pv_object.specs.Later.{IsLater};
ghost use Rattle.pv_object.specs.Values.{IsOf};
ghost use Rattle.pv_object.specs.Answers.{IsMadeValue, after_storing, OrSpent, HasSize, without_use, tried_in, survivors};
ghost use Rattle.pv_object.specs.Encoding.{size_of, encode};
ghost use Rattle.pv_object.specs.Access.{reach};
ghost use Rattle.pv_object.specs.Loading.{value_of, load, exposed_by, loaded_test, integer_of, pointer_of};
ghost use Rattle.pv_object.specs.Loads.{loaded_name, whole_pointer, MakesPair, FitsTwo, OrNoPair};
ghost use Rattle.pv_object.specs.Copying.{with_bytes, after_copy};
ghost use Rattle.pv_object.specs.Creating.{creation, without};
ghost use Rattle.pv_shadow.specs.Whole.{pointer_bytes, little_endian, number_in};
ghost use Rattle.pv_object.specs.declared.values.Scalar.{Scalar as Form};
ghost use Rattle.pv_object.specs.declared.values.Value.{Value as Stored};

use crate::checks::{Wish, behind, checked_in, chosen, clause_of, range_stop, undefined, unused};
use crate::encoding;
use crate::values::{Asker, Pointer, Reach, Scalar, Stop, Stopped, UNTRIED, Value};
use pv_fault::{Clause, Reason, Verdict};
use pv_inst::{CreateError, Instances, Kind, Miss, Test, Tried};
use pv_num::{IntKind, convert, is_character_kind};
use pv_prov::{NoMemory, Prov};
use pv_script::{Names, Script};
use pv_shadow::{BLANK, Byte, Bytes, whole_name};
use std::alloc::Global;
use std::marker::Model;

/// The storage instances of a run and the bytes of the live ones, seen as `Mem`.
#[derive(Drop)]
pub struct Memory {
    alloc: Global,
    table: Instances,
    bytes: Bytes,
}

impl Model for Memory {
    ghost use Rattle.std.specs.Coded.{codes};
    ghost use Rattle.pv_inst.specs.CountsCode.{counts_code};
    ghost use Rattle.pv_object.specs.Codes.{store_code};
    ghost use Rattle.pv_object.specs.Memory.{Mem};
    ghost use Rattle.pv_object.specs.Reaching.{HasLiveBytes};

    ghost Value = { Mem };

    ghost coded = { Prim.hlevel (codes, counts_code, store_code) };

    ghost view = { λ m. record { table = m.table; bytes = m.bytes } };

    ghost invariant = { λ m. HasLiveBytes m.table m.bytes };
}

// The first n of eight bytes stand in memory.
fn first_bytes(bytes: &Bytes, a: u64, n: usize) -> [Byte; 8]
    requires few { n ≤ 8 }
    requires there { HasBytes bytes.now a n }
    requires within { a + n < 2 ^ 64 }
    ensures { take n result ≡ bytes_from bytes.now a n }
{
    let mut first = [BLANK; 8];
    bytes.read(a, &mut first[..n]);
    first
}

// The bytes that stand in memory.
fn fetch(alloc: Global, bytes: &Bytes, a: u64, n: u64) -> Result<Vec<Byte>, NoMemory>
    requires there { HasBytes bytes.now a n }
    requires within { a + n < 2 ^ 64 }
    ensures { IfOk result (λ v. v.items ≡ bytes_from bytes.now a n) }
{
    let mut copy = vec![in alloc; BLANK; n as usize]?;
    bytes.read(a, &mut copy);
    Ok(copy)
}

impl Memory {
    /// The memory without instances.
    pub fn new(alloc: Global, script: Script, names: &Names, zap: bool) -> Result<Self, NoMemory>
        ensures { IfOk result (λ m. m ≡ empty_memory script zap) }
    {
        Ok(Memory {
            alloc,
            table: Instances::new(alloc, script, names, zap)?,
            bytes: Bytes::new(alloc),
        })
    }

    /// The table of instances, for reading.
    pub fn instances(&self) -> &Instances
        ensures { result.now ≡ self.now.table }
    {
        &self.table
    }

    // A use of a name: see `Instances::narrow`.
    #[inline(always)]
    pub(crate) fn narrow(&mut self, p: Prov, test: Test) -> Result<Tried, Miss>
        requires { IsMadeIn self.old.table p }
        ensures answer { result ≡ use_answer self.old.table p test }
        ensures state { self.new ≡ with_table self.old (after_use self.old.table p result) }
        ensures later { IsLater self.old.table self.new.table }
        ensures keeps { (q : Prov) → IsMadeIn self.old.table q → IsMadeIn self.new.table q }
    {
        self.table.narrow(p, test)
    }

    // The use of two names together: see `Instances::same`.
    pub(crate) fn same(&mut self, p: Prov, q: Prov) -> Result<(Tried, Tried), Miss>
        requires left { IsMadeIn self.old.table p }
        requires right { IsMadeIn self.old.table q }
        ensures answer { result ≡ same_answer self.old.table p q }
        ensures state { self.new ≡ with_table self.old (after_same self.old.table p q) }
        ensures later { IsLater self.old.table self.new.table }
    {
        self.table.same(p, q)
    }

    // The live candidates of a name become exposed.
    #[inline(always)]
    pub(crate) fn expose(&mut self, p: Prov)
        requires { IsMadeIn self.old.table p }
        ensures state { self.new ≡ with_table self.old (expose self.old.table p) }
        ensures later { IsLater self.old.table self.new.table }
        ensures keeps { (q : Prov) → IsMadeIn self.old.table q → IsMadeIn self.new.table q }
    {
        self.table.expose(p);
    }

    // The name of an integer that is converted to a pointer.
    pub(crate) fn name_for(&mut self, a: u64) -> Result<Prov, NoMemory>
        ensures name { IfOk result (λ p. p ≡ name_at self.old.table a) }
        ensures state { OnOk result (self.new ≡ with_table self.old (after_name self.old.table a)) }
        ensures made { IfOk result (λ p. IsMadeIn self.new.table p) }
        ensures unchanged { OnErr result (self.new ≡ self.old) }
        ensures later { IsLater self.old.table self.new.table }
        ensures only { OnErr result (FitsTwo self.old.table a) }
    {
        self.table.name_for(a)
    }

    /// The use of a pointer that `free` or `realloc` is given (7.22.3.3, 7.22.3.5): it points to a live allocation.
    pub fn block(&mut self, p: Pointer) -> Result<Tried, Miss>
        requires { IsMadeIn self.old.table p.prov }
        ensures answer { result ≡ use_answer self.old.table p.prov (Test.Block p.address) }
        ensures state { self.new ≡ with_table self.old (after_use self.old.table p.prov result) }
        ensures later { IsLater self.old.table self.new.table }
    {
        let address = p.address;
        self.narrow(p.prov, Test::Block { address })
    }

    /// Keeps one of the two instances of a pair that keeps both: the high one, or else the low one. See `Instances::side`.
    pub fn side(&mut self, pair: u64, high: bool)
        requires made { IsMadeIn self.old.table (Prov.Pair pair) }
        requires low_stands { Stands_low self.old.table.pairs pair }
        requires high_stands { Stands_high self.old.table.pairs pair }
        ensures state { self.new ≡ with_table self.old (record self.old.table { pairs = after_narrowing self.old.table.pairs pair (not high) high }) }
        ensures later { IsLater self.old.table self.new.table }
    {
        self.table.side(pair, high);
    }

    /// Whether each instance that became exposed was given.
    pub fn is_told(&self) -> bool
        ensures { result ≡ true → self.now.table.pending ≡ [] }
    {
        self.table.is_told()
    }

    /// The next instance that became exposed and was not given yet.
    pub fn next_exposed(&mut self) -> Option<u64>
        ensures given { self.old.table.pending ≡ option_to_list result ++ self.new.table.pending }
        ensures none { IfNone result (self.old.table.pending ≡ []) }
        ensures rest { self.new ≡ with_table self.old (record self.old.table { pending = drop 1 self.old.table.pending }) }
    {
        self.table.next_exposed()
    }

    /// A new instance with blank bytes, or why there is none. After `NoMemory` the memory isn't used again.
    pub fn create(
        &mut self,
        names: &Names,
        name: u32,
        size: u64,
        align: u64,
        kind: Kind,
    ) -> Result<u64, CreateError>
        requires named { name < length names.now }
        requires sized { 1 ≤ size }
        requires aligned { 1 ≤ align }
        requires heap { (text_of names.now name ≡ codes "@heap") ↔ (is_heap kind ≡ true) }
        ensures answer { OrSpent result self.new (creation self.old (record {
          text = text_of names.now name;
          name = name;
          size = size;
          align = align;
          kind = kind;
        })) }
        ensures live { IfOk result (λ i. IsLive self.new.table.instances i) }
        ensures sized { IfOk result (λ i. HasSize self.new.table.instances i size) }
    {
        let i = self.table.create(names, name, size, align, kind)?;
        self.table.well_formed();
        let Some(x) = self.table.info(i) else {
            unreachable!();
        };
        match self.bytes.add(x.base, x.size) {
            Ok(()) => Ok(i),
            Err(NoMemory) => {
                self.table.end(i);
                Err(CreateError::NoMemory)
            }
        }
    }

    /// Ends a live instance: it has no bytes from here on. Its number is never used again.
    pub fn end(&mut self, i: u64)
        requires { IsLive self.old.table.instances i }
        ensures { self.new ≡ without self.old i }
    {
        self.table.well_formed();
        let Some(x) = self.table.info(i) else {
            unreachable!();
        };
        self.table.end(i);
        self.bytes.remove(x.base, x.size);
    }

    /// The checks of an access to `n` bytes through a pointer, in this order: it is not null, its name is not empty, a
    /// candidate is live (6.2.4p2), the bytes lie in a live candidate, the address is a multiple of `align`, and what
    /// is written to is no literal (6.4.5p7) and not const-qualified (6.7.3p6).
    #[inline(always)]
    #[tactic(auto, using(crate::proofs::Later::later_itself, crate::proofs::Later::later_both, crate::proofs::Survivors::null_untried, crate::proofs::Survivors::empty_untried))]
    pub fn reach(
        &mut self,
        p: Pointer,
        n: u64,
        align: u64,
        write: bool,
        by: Asker,
    ) -> Result<Reach, Stopped>
        requires made { IsMadeIn self.old.table p.prov }
        requires aligned { 1 ≤ align }
        ensures answer { without_use result ≡ (reach self.old.table p n align write by).0 }
        ensures tried { tried_in (λ r. r.tried) result ≡ survivors (use_answer self.old.table p.prov (Test.Range p.address n)) }
        ensures state { self.new ≡ with_table self.old (reach self.old.table p n align write by).1 }
        ensures later { IsLater self.old.table self.new.table }
        ensures within { IfOk result (λ r. IsReach self.new.table r n) }
    {
        let clause = clause_of(by);
        if p.is_null() {
            return Err(unused(undefined(clause, Reason::Null)));
        }
        if p.prov.is_empty() {
            return Err(unused(undefined(clause, Reason::Empty)));
        }
        let stands = self.table.stands(p.prov);
        let test = Test::Range {
            address: p.address,
            size: n,
        };
        let tried = match self.narrow(p.prov, test) {
            Ok(tried) => tried,
            Err(miss) => return Err(unused(range_stop(clause, miss))),
        };
        let Some(i) = chosen(stands, tried) else {
            let stop = undefined(clause, Reason::Outside);
            return Err(Stopped { stop, tried });
        };
        let wish = Wish {
            clause,
            pointer: p,
            size: n,
            align,
            write,
        };
        behind(tried, checked_in(i, wish, tried, self.table.info(i)))
    }

    /// The value at a place that was reached. All bytes stay.
    ///
    /// `Indeterminate` exactly where a byte that is needed has no value; `NoMemory` only where a new pair is made.
    pub fn load(&mut self, at: &Reach, t: Scalar) -> Result<(Value, Tried), Stop>
        requires { IsReach self.old.table at.now (size_of t) }
        ensures answer { OrNoPair (MakesPair self.old.table (bytes_from self.old.bytes at.now.address (size_of t)) t) result self.old.table self.new.table (load self.old at.now.address t) }
        ensures bytes { self.new.bytes ≡ self.old.bytes }
        ensures later { IsLater self.old.table self.new.table }
        ensures made { IfOk result (λ r. IsMadeValue self.new.table r.0) }
    {
        self.table.well_formed();
        let size = encoding::size_of(t);
        let bytes = first_bytes(&self.bytes, at.address, size);
        self.value_of(&bytes[..size], t)
    }

    /// What bytes are worth at a scalar type, of which they have the size: as a load of them.
    #[inline(always)]
    pub fn value_of(&mut self, bytes: &[Byte], t: Scalar) -> Result<(Value, Tried), Stop>
        requires size { length bytes.now ≡ size_of t }
        requires made { All (λ b. IsMadeIn self.old.table b.prov) bytes.now }
        ensures answer { OrNoPair (MakesPair self.old.table bytes.now t) result self.old.table self.new.table (value_of self.old.table bytes.now t) }
        ensures bytes { self.new.bytes ≡ self.old.bytes }
        ensures later { IsLater self.old.table self.new.table }
        ensures made { IfOk result (λ r. IsMadeValue self.new.table r.0) }
    {
        match t {
            Scalar::Int(kind) => self.integer_of(bytes, kind),
            Scalar::Pointer => self.pointer_of(bytes),
        }
    }

    /// The provenance name of the pointer that bytes are, before its live test; of two instances that fit their number
    /// it is the pair that a load would make next. None where a byte has no value. Nothing changes.
    pub fn loaded_name(&self, bytes: &[Byte]) -> Option<Prov>
        requires { length bytes.now ≤ 8 }
        ensures { result ≡ loaded_name self.now.table bytes.now }
    {
        let address = pv_shadow::number(bytes)?;
        match whole_name(bytes) {
            Some(prov) => Some(prov),
            None => Some(self.table.name_at(address)),
        }
    }

    /// The pointer that the eight bytes at a place are, before its live test: some exactly where they were stored as one
    /// pointer and are whole. No byte is handed over.
    #[inline(always)]
    #[tactic(auto, using(crate::proofs::Wholes::whole_is, crate::proofs::Wholes::none_is))]
    pub fn whole_pointer(&self, at: &Reach) -> Option<Pointer>
        requires { IsReach self.now.table at.now 8 }
        ensures answer { result ≡ whole_pointer (bytes_from self.now.bytes at.now.address 8) }
        ensures made { IfSome result (λ p. IsMadeIn self.now.table p.prov) }
    {
        self.table.well_formed();
        match self.bytes.pointer(at.address) {
            Some((address, prov)) => Some(Pointer { address, prov }),
            None => None,
        }
    }

    /// The number that the n bytes at a place are, the least significant first: some exactly where each has a value and none
    /// has a name, so that nothing is exposed by reading them. No byte is handed over.
    #[inline(always)]
    pub fn number(&self, at: &Reach, n: u64) -> Option<u64>
        requires few { n ≤ 8 }
        requires reached { IsReach self.now.table at.now n }
        ensures { result ≡ nameless_number (bytes_from self.now.bytes at.now.address n) }
    {
        self.table.well_formed();
        self.bytes.number(at.address, n)
    }

    /// A number whose digits to the base 256 are the values of the n bytes from an address on, the least significant first,
    /// where none of them has a name, so that nothing is exposed by reading them. No byte is handed over, and no access is
    /// checked; `None` says nothing.
    #[inline(always)]
    pub fn digits(&self, a: u64, n: u64) -> Option<u64>
        requires { n ≤ 8 }
        ensures { IfSome result (HasDigits self.now.bytes a n) }
    {
        self.bytes.digits(a, n)
    }

    /// Whether the n bytes at a place that was reached have the marks of one store of the type with this number (6.5p6).
    #[inline(always)]
    pub fn is_marked(&self, at: &Reach, n: u64, t: u32) -> bool
        requires some { 1 ≤ n }
        requires few { n ≤ 8 }
        requires reached { IsReach self.now.table at.now n }
        ensures { result ≡ are_marked (bytes_from self.now.bytes at.now.address n) t 0 }
    {
        self.table.well_formed();
        self.bytes.is_marked(at.address, n, t)
    }

    // What bytes are worth at an integer type. The names of the bytes that are read become exposed.
    #[inline(always)]
    #[tactic(auto, using(crate::proofs::Later::later_itself, crate::proofs::Later::later_both))]
    fn integer_of(&mut self, bytes: &[Byte], kind: IntKind) -> Result<(Value, Tried), Stop>
        requires size { length bytes.now ≤ 8 }
        requires made { All (λ b. IsMadeIn self.old.table b.prov) bytes.now }
        ensures answer { result ≡ (integer_of self.old.table kind bytes.now (number_in bytes.now)).0 }
        ensures state { self.new ≡ with_table self.old (integer_of self.old.table kind bytes.now (number_in bytes.now)).1 }
        ensures later { IsLater self.old.table self.new.table }
        ensures made { IfOk result (λ r. IsMadeValue self.new.table r.0) }
    {
        let Some(number) = pv_shadow::number(bytes) else {
            if !is_character_kind(kind) {
                return Err(Stop::Ends(Verdict::Indeterminate));
            }
            self.expose_all(bytes);
            return Ok((Value::Unset, UNTRIED));
        };
        if encoding::is_trap(kind, number) {
            return Err(undefined(Clause::Traps, Reason::Trap));
        }
        self.expose_all(bytes);
        Ok((Value::Int(convert(kind, i128::from(number))), UNTRIED))
    }

    // The names of bytes become exposed, from the first byte on.
    #[tactic(auto, using(crate::proofs::Later::later_itself, crate::proofs::Later::later_both))]
    fn expose_all(&mut self, bytes: &[Byte])
        requires { All (λ b. IsMadeIn self.old.table b.prov) bytes.now }
        ensures state { self.new ≡ with_table self.old (exposed_by self.old.table bytes.now) }
        ensures later { IsLater self.old.table self.new.table }
    {
        for i in 0..bytes.len() {
            self.expose(bytes[i].prov);
        }
    }

    // What eight bytes are worth at a pointer type.
    #[tactic(auto, using(crate::proofs::Later::later_itself, crate::proofs::Later::later_both))]
    fn pointer_of(&mut self, bytes: &[Byte]) -> Result<(Value, Tried), Stop>
        requires size { length bytes.now ≡ 8 }
        requires made { All (λ b. IsMadeIn self.old.table b.prov) bytes.now }
        ensures answer { OrNoPair (MakesPair self.old.table bytes.now Scalar.Pointer) result self.old.table self.new.table (pointer_of self.old.table bytes.now (number_in bytes.now)) }
        ensures bytes { self.new.bytes ≡ self.old.bytes }
        ensures later { IsLater self.old.table self.new.table }
        ensures made { IfOk result (λ r. IsMadeValue self.new.table r.0) }
    {
        let Some(address) = pv_shadow::number(bytes) else {
            return Err(Stop::Ends(Verdict::Indeterminate));
        };
        match whole_name(bytes) {
            Some(prov) => self.tested(Pointer { address, prov }),
            None => match self.name_for(address) {
                Ok(prov) => self.tested(Pointer { address, prov }),
                Err(NoMemory) => Err(Stop::NoMemory),
            },
        }
    }

    /// The value of a pointer that was just loaded: it passes the live test, or its instances have ended (6.2.4p2).
    pub fn tested(&mut self, p: Pointer) -> Result<(Value, Tried), Stop>
        requires { IsMadeIn self.old.table p.prov }
        ensures answer { result ≡ (loaded_test self.old.table p).0 }
        ensures state { self.new ≡ with_table self.old (loaded_test self.old.table p).1 }
        ensures later { IsLater self.old.table self.new.table }
        ensures made { IfOk result (λ r. IsMadeValue self.new.table r.0) }
    {
        match self.narrow(p.prov, Test::Live) {
            Ok(tried) => Ok((Value::Pointer(p), tried)),
            Err(_) => Err(undefined(Clause::Lifetimes, Reason::Ended)),
        }
    }

    /// Makes the bytes at a place that was reached those of a value, marked by the type. All other bytes stay.
    #[inline(always)]
    pub fn store(&mut self, at: &Reach, t: Scalar, v: &Value, mark: Option<u32>)
        requires reached { IsReach self.old.table at.now (size_of t) }
        requires value { IsOf t v.now }
        requires made { IsMadeValue self.old.table v.now }
        ensures { self.new ≡ after_storing self.old at.now.address t v.now mark }
    {
        match (t, *v) {
            (Scalar::Pointer, Value::Pointer(p)) => self.store_pointer(at, p, mark),
            (Scalar::Int(kind), Value::Int(n)) => self.store_number(at, kind, n, mark),
            _ => self.store_bytes(at, t, v, mark),
        }
    }

    // The same, byte by byte.
    #[inline(always)]
    fn store_bytes(&mut self, at: &Reach, t: Scalar, v: &Value, mark: Option<u32>)
        requires reached { IsReach self.old.table at.now (size_of t) }
        requires value { IsOf t v.now }
        requires made { IsMadeValue self.old.table v.now }
        ensures { self.new ≡ after_storing self.old at.now.address t v.now mark }
    {
        let bytes = encoding::encode(t, v, mark);
        let size = encoding::size_of(t);
        self.write_bytes(at, &bytes[..size]);
    }

    // The same of an integer.
    #[inline(always)]
    fn store_number(&mut self, at: &Reach, kind: IntKind, n: i128, mark: Option<u32>)
        requires { IsReach self.old.table at.now (size_of (Form.Int kind)) }
        ensures { self.new ≡ after_storing self.old at.now.address (Form.Int kind) (Stored.Int n) mark }
    {
        self.table.well_formed();
        let size = encoding::size_of(Scalar::Int(kind));
        let number = pv_num::bits(kind, n);
        self.bytes.put_number(at.address, size as u64, number, mark);
    }

    // The same of a pointer, which stays whole.
    fn store_pointer(&mut self, at: &Reach, p: Pointer, mark: Option<u32>)
        requires reached { IsReach self.old.table at.now 8 }
        requires made { IsMadeIn self.old.table p.prov }
        ensures { self.new ≡ with_bytes self.old at.now.address (pointer_bytes mark p.prov 0 (little_endian 8 p.address)) }
    {
        self.table.well_formed();
        self.bytes.put_pointer(at.address, p.address, p.prov, mark);
    }

    /// Makes the `n` bytes at a place those that stand at another, whole. All other bytes stay.
    pub fn copy(&mut self, to: &Reach, from: &Reach, n: u64)
        requires target { IsReach self.old.table to.now n }
        requires source { IsReach self.old.table from.now n }
        ensures { self.new ≡ after_copy self.old to.now.address from.now.address n }
    {
        self.table.well_formed();
        self.bytes.copy(to.address, from.address, n);
    }

    /// The `n` bytes at a place that was reached.
    #[inline(always)]
    pub fn read_bytes(&self, at: &Reach, n: u64) -> Result<Vec<Byte>, NoMemory>
        requires { IsReach self.now.table at.now n }
        ensures bytes { IfOk result (λ v. v.items ≡ bytes_from self.now.bytes at.now.address n) }
        ensures made { IfOk result (λ v. All (λ b. IsMadeIn self.now.table b.prov) v.items) }
    {
        self.table.well_formed();
        fetch(self.alloc, &self.bytes, at.address, n)
    }

    /// The bytes at a place that was reached, as many as there is room for.
    #[inline(always)]
    pub fn read_into(&self, at: &Reach, into: &mut [Byte])
        requires { IsReach self.now.table at.now (length into.old) }
        ensures bytes { into.new ≡ bytes_from self.now.bytes at.now.address (length into.old) }
        ensures made { All (λ b. IsMadeIn self.now.table b.prov) into.new }
    {
        self.table.well_formed();
        self.bytes.read(at.address, into);
    }

    /// Makes the bytes at a place that was reached these, whole. All other bytes stay.
    #[inline(always)]
    pub fn write_bytes(&mut self, at: &Reach, bytes: &[Byte])
        requires reached { IsReach self.old.table at.now (length bytes.now) }
        requires made { All (λ b. IsMadeIn self.old.table b.prov) bytes.now }
        ensures { self.new ≡ with_bytes self.old at.now.address bytes.now }
    {
        self.table.well_formed();
        self.bytes.write(at.address, bytes);
    }

    /// Makes the `n` bytes at a place that was reached all this one. All other bytes stay.
    pub fn fill_bytes(&mut self, at: &Reach, n: u64, byte: Byte)
        requires reached { IsReach self.old.table at.now n }
        requires made { IsMadeIn self.old.table byte.prov }
        ensures { self.new ≡ with_bytes self.old at.now.address (replicate n byte) }
    {
        self.table.well_formed();
        self.bytes.fill(at.address, n, byte);
    }
}
