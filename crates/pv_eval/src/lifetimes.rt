// Objects and literals of a moment: they begin and end, and values are stored in them (C17 6.2.4, 6.4.5, 6.7.9, 6.9.1).
ghost use Rattle.std.specs.Prelude.{◌≡◌, ◌<◌, ℕ, [], length};
ghost use Rattle.pv_types.specs.Known.{tree};
ghost use Rattle.pv_typed.specs.Tables.{Stored};
ghost use Rattle.pv_world.specs.Worlds.{Nothing};
ghost use Rattle.pv_world.specs.Coming.{worth_of};
ghost use Rattle.pv_eval.specs.States.{Gives};
ghost use Rattle.pv_eval.specs.TypeForms.{lvalue, size_of};
ghost use Rattle.pv_eval.specs.Runnable.{IsRunnable};
ghost use Rattle.pv_eval.specs.Operations.{Makes, MakesLiteral, MakesFunction, Ends, BeginsBody, EndsBody, Fills, Puts, PutsText, act};
ghost use Rattle.pv_eval.specs.Moments.{Always, Made, IsMemory, Stays, state_of};

use crate::failure::Failure;
use crate::moment::Moment;
use crate::objects;
use pv_typed::TypedUnit;
use pv_types::TypeId;
use pv_watch::What;
use pv_world::Got;
use std::alloc::Global;

/// The list that is kept for what an operation tells, empty.
#[inline(always)]
fn lent(kept: &mut Vec<What>, alloc: Global) -> Vec<What>
    ensures { result.items ≡ [] }
{
    let mut told = std::mem::replace(kept, Vec::new(alloc));
    told.clear();
    told
}

impl Moment {
    // The list is kept for its memory.
    #[inline(always)]
    fn keep(&mut self, told: Vec<What>)
        ensures { self.new ≡ self.old }
    {
        self.told = told;
    }

    /// A body begins, without objects of its own (C17 6.2.4p6): of the function with this name, for the call in this line.
    pub fn begin_body(&mut self, function: u32, line: u32) -> Result<(), Failure>
        ensures made { (u : Stored) → Always u self.old (λ b out es. (at : ℕ) → Made (act b at (BeginsBody function line) (state_of self.old out es)) result (state_of self.new out es)) }
        ensures stays { Stays self.old self.new }
        ensures memory { IsMemory result }
    {
        let told = Vec::new(self.alloc);
        match self.world.begin_body(function, line) {
            Ok(()) => self.close_done(&told),
            Err(_) => Err(Failure::NoMemory),
        }
    }

    /// The innermost body ends.
    pub fn end_body(&mut self)
        ensures made { (u : Stored) → Always u self.old (λ b out es. (line : ℕ) → act b line EndsBody (state_of self.old out es) ≡ Gives Nothing (state_of self.new out es)) }
        ensures stays { Stays self.old self.new }
    {
        self.world.end_body();
    }

    /// An object begins its lifetime (C17 6.2.4p2).
    pub fn make(&mut self, unit: &TypedUnit, line: u32, o: u32) -> Result<(), Failure>
        requires runnable { IsRunnable unit.now }
        requires named { o < length unit.now.objects }
        ensures made { Always unit.now self.old (λ b out es. Made (act b line (Makes o) (state_of self.old out es)) result (state_of self.new out es)) }
        ensures stays { Stays self.old self.new }
    {
        let before = self.world.pairs_made();
        let mut told = lent(&mut self.told, self.alloc);
        let answer = objects::make(&mut self.world, unit, o, &mut told);
        let made = self.close_made(line, before, &told, answer);
        self.keep(told);
        made
    }

    /// A function that is pointed to has an instance (C17 6.3.2.1p4).
    pub fn make_function(&mut self, unit: &TypedUnit, line: u32, f: u32) -> Result<(), Failure>
        requires runnable { IsRunnable unit.now }
        requires named { f < length unit.now.functions }
        ensures made { Always unit.now self.old (λ b out es. Made (act b line (MakesFunction f) (state_of self.old out es)) result (state_of self.new out es)) }
        ensures stays { Stays self.old self.new }
    {
        let before = self.world.pairs_made();
        let mut told = Vec::new(self.alloc);
        let answer = objects::make_function(&mut self.world, unit, f, &mut told);
        self.close_made(line, before, &told, answer)
    }

    /// A literal's array begins its lifetime (C17 6.4.5p6).
    pub fn make_literal(&mut self, unit: &TypedUnit, line: u32, l: u32) -> Result<(), Failure>
        requires runnable { IsRunnable unit.now }
        requires named { l < length unit.now.literals }
        ensures made { Always unit.now self.old (λ b out es. Made (act b line (MakesLiteral l) (state_of self.old out es)) result (state_of self.new out es)) }
        ensures stays { Stays self.old self.new }
    {
        let before = self.world.pairs_made();
        let mut told = Vec::new(self.alloc);
        let answer = objects::make_literal(&mut self.world, unit, l, &mut told);
        self.close_made(line, before, &told, answer)
    }

    /// An object ends its lifetime (C17 6.2.4p2).
    pub fn finish(&mut self, unit: &TypedUnit, o: u32) -> Result<(), Failure>
        requires runnable { IsRunnable unit.now }
        requires named { o < length unit.now.objects }
        ensures made { Always unit.now self.old (λ b out es. (line : ℕ) → Made (act b line (Ends o) (state_of self.old out es)) result (state_of self.new out es)) }
        ensures stays { Stays self.old self.new }
        ensures memory { IsMemory result }
    {
        let mut told = lent(&mut self.told, self.alloc);
        match objects::finish(&mut self.world, unit, o, &mut told) {
            Ok(()) => {
                let ended = self.close_done(&told);
                self.keep(told);
                ended
            }
            Err(_) => Err(Failure::NoMemory),
        }
    }

    /// Every byte of an object becomes this one, or as in a new instance (C17 6.7.9p10, p19, p21).
    pub fn fill(&mut self, unit: &TypedUnit, o: u32, value: Option<u8>) -> Result<(), Failure>
        requires runnable { IsRunnable unit.now }
        requires named { o < length unit.now.objects }
        ensures made { Always unit.now self.old (λ b out es. (line : ℕ) → Made (act b line (Fills o value) (state_of self.old out es)) result (state_of self.new out es)) }
        ensures stays { Stays self.old self.new }
        ensures memory { IsMemory result }
    {
        let told = Vec::new(self.alloc);
        match objects::fill(&mut self.world, unit, o, value) {
            Ok(()) => self.close_done(&told),
            Err(_) => Err(Failure::NoMemory),
        }
    }

    /// A store of an initializer or of a parameter (C17 6.7.9p11, 6.9.1p10).
    pub fn put(
        &mut self,
        unit: &TypedUnit,
        o: u32,
        offset: u64,
        t: TypeId,
        v: &Got,
    ) -> Result<(), Failure>
        requires runnable { IsRunnable unit.now }
        requires named { o < length unit.now.objects }
        requires typed { t.0 < length unit.now.known.terms }
        ensures made { Always unit.now self.old (λ b out es. (line : ℕ) → Made (act b line (Puts o offset (lvalue b (tree unit.now.known t.0)) (worth_of v.now)) (state_of self.old out es)) result (state_of self.new out es)) }
        ensures stays { Stays self.old self.new }
        ensures memory { IsMemory result }
    {
        let told = Vec::new(self.alloc);
        objects::put(&mut self.world, unit, o, offset, t, v);
        self.close_done(&told)
    }

    /// The characters of a literal that fill an array (C17 6.7.9p14).
    pub fn put_text(
        &mut self,
        unit: &TypedUnit,
        o: u32,
        offset: u64,
        t: TypeId,
        literal: u32,
    ) -> Result<(), Failure>
        requires runnable { IsRunnable unit.now }
        requires named { o < length unit.now.objects }
        requires typed { t.0 < length unit.now.known.terms }
        requires literal { literal < length unit.now.literals }
        ensures made { Always unit.now self.old (λ b out es. (line : ℕ) → Made (act b line (PutsText o offset (size_of b (tree unit.now.known t.0)) literal) (state_of self.old out es)) result (state_of self.new out es)) }
        ensures stays { Stays self.old self.new }
        ensures memory { IsMemory result }
    {
        let told = Vec::new(self.alloc);
        let alloc = self.alloc;
        match objects::put_text(alloc, &mut self.world, unit, o, offset, t, literal) {
            Ok(()) => self.close_done(&told),
            Err(_) => Err(Failure::NoMemory),
        }
    }
}
