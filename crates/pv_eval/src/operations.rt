// Operations on values (C17 6.3, 6.5), each of the node in a line: what they tell is marked.
ghost use Rattle.std.specs.Prelude.{◌≡◌, ◌<◌, length, IfOk};
ghost use Rattle.pv_types.specs.Known.{tree};
ghost use Rattle.pv_typed.specs.TypedTree.{type_of};
ghost use Rattle.pv_typed.specs.Tables.{Stored};
ghost use Rattle.pv_typed.specs.NodeTrees.{expression_at, IsExpression};
ghost use Rattle.pv_world.specs.Coming.{worth_of};
ghost use Rattle.pv_world.specs.declared.got.How.TheVariants.{Rounds};
ghost use Rattle.pv_eval.specs.TypeForms.{kind_of, element_size, lvalue, pointed_to};
ghost use Rattle.pv_types.specs.Sorts.{is_void, is_pointer};
ghost use Rattle.pv_eval.specs.Conversions.{how_to};
ghost use Rattle.pv_eval.specs.Runnable.{IsRunnable};
ghost use Rattle.pv_eval.specs.Operations.{NamesFunction, Finds, Converts, Calculates, CalculatesOne, Tests, Negates, Moves, Subtracts, Orders, Equals, Follows, Selects, Accepts, Needs, TakesPart, NamesObject, NamesLiteral, act};
ghost use Rattle.pv_eval.specs.Moments.{Acted, Tested, Needed, Called, Always, Stays, state_of};

use crate::callees;
use crate::failure::Failure;
use crate::moment::Moment;
use crate::sized::{part_of, shift_by, subtract_by};
use crate::types::{how, is_none, kind, pointee};
use pv_num::{BinOp, IntKind, UnOp};
use pv_object::Value;
use pv_tree::NodeId;
use pv_typed::TypedUnit;
use pv_types::TypeId;
use pv_world::{Got, How};

impl Moment {
    /// The kind of an integer expression.
    pub fn kind(&self, unit: &TypedUnit, n: NodeId) -> IntKind
        requires runnable { IsRunnable unit.now }
        requires there { IsExpression unit.now n }
        ensures { result ≡ kind_of (type_of (expression_at unit.now n)) }
    {
        kind(unit.types(), unit.type_of(n))
    }

    /// Whether an expression has pointer type.
    pub fn is_pointer(&self, unit: &TypedUnit, n: NodeId) -> bool
        requires runnable { IsRunnable unit.now }
        requires there { IsExpression unit.now n }
        ensures { result ≡ is_pointer (type_of (expression_at unit.now n)) }
    {
        pointee(unit.types(), unit.type_of(n)).is_some()
    }

    /// Whether an expression has the type `void`.
    pub fn is_none(&self, unit: &TypedUnit, n: NodeId) -> bool
        requires runnable { IsRunnable unit.now }
        requires there { IsExpression unit.now n }
        ensures { result ≡ is_void (type_of (expression_at unit.now n)) }
    {
        is_none(unit.types(), unit.type_of(n))
    }

    /// A conversion (C17 6.3) from a type to a type.
    pub fn convert(
        &mut self,
        unit: &TypedUnit,
        line: u32,
        implied: bool,
        from: TypeId,
        to: TypeId,
        v: Got,
    ) -> Result<Got, Failure>
        requires runnable { IsRunnable unit.now }
        requires from { from.0 < length unit.now.known.terms }
        requires to { to.0 < length unit.now.known.terms }
        ensures acted { Acted unit.now line (λ b. Converts (how_to b implied (tree unit.now.known from.0) (tree unit.now.known to.0)) (worth_of v)) result self.old self.new }
        ensures stays { Stays self.old self.new }
    {
        let how = how(unit.types(), implied, from, to);
        let before = self.world.pairs_made();
        let mut told = Vec::new(self.alloc);
        let answer = self.world.convert(how, v, &mut told);
        self.close(line, before, &told, answer)
    }

    /// A conversion to an integer kind (C17 6.3.1.2, 6.3.1.3).
    pub fn round(
        &mut self,
        unit: &TypedUnit,
        line: u32,
        kind: IntKind,
        v: Got,
    ) -> Result<Got, Failure>
        requires runnable { IsRunnable unit.now }
        ensures acted { Acted unit.now line (λ b. Converts (Rounds kind) (worth_of v)) result self.old self.new }
        ensures stays { Stays self.old self.new }
    {
        let before = self.world.pairs_made();
        let mut told = Vec::new(self.alloc);
        let answer = self.world.convert(How::Rounds(kind), v, &mut told);
        self.close(line, before, &told, answer)
    }

    /// An operator on two integers (C17 6.5.5 to 6.5.12).
    #[inline(always)]
    pub fn calculate(
        &mut self,
        unit: &TypedUnit,
        line: u32,
        op: BinOp,
        kind: IntKind,
        v: Got,
        w: Got,
    ) -> Result<Got, Failure>
        requires runnable { IsRunnable unit.now }
        ensures acted { Acted unit.now line (λ b. Calculates op kind (worth_of v) (worth_of w)) result self.old self.new }
        ensures stays { Stays self.old self.new }
    {
        let before = self.world.pairs_made();
        let mut told = Vec::new(self.alloc);
        let answer = pv_world::calculate(op, kind, &v, &w, &mut told);
        self.close(line, before, &told, answer)
    }

    /// An operator on one integer (C17 6.5.3.3).
    pub fn calculate_one(
        &mut self,
        unit: &TypedUnit,
        line: u32,
        op: UnOp,
        kind: IntKind,
        v: Got,
    ) -> Result<Got, Failure>
        requires runnable { IsRunnable unit.now }
        ensures acted { Acted unit.now line (λ b. CalculatesOne op kind (worth_of v)) result self.old self.new }
        ensures stays { Stays self.old self.new }
    {
        let before = self.world.pairs_made();
        let mut told = Vec::new(self.alloc);
        let answer = pv_world::calculate_one(op, kind, &v, &mut told);
        self.close(line, before, &told, answer)
    }

    /// A value compared with 0 (C17 6.5.13 to 6.5.15).
    #[inline(always)]
    pub fn test(&mut self, unit: &TypedUnit, line: u32, v: Got) -> Result<bool, Failure>
        requires runnable { IsRunnable unit.now }
        ensures tested { Always unit.now self.old (λ b out es. Tested (act b line (Tests (worth_of v)) (state_of self.old out es)) result (state_of self.new out es)) }
        ensures stays { Stays self.old self.new }
    {
        let before = self.world.pairs_made();
        let mut told = Vec::new(self.alloc);
        let answer = self.world.test(&v, &mut told);
        self.close_test(line, before, &told, answer)
    }

    /// The same, turned round (C17 6.5.3.3p5).
    pub fn negate(&mut self, unit: &TypedUnit, line: u32, v: Got) -> Result<Got, Failure>
        requires runnable { IsRunnable unit.now }
        ensures acted { Acted unit.now line (λ b. Negates (worth_of v)) result self.old self.new }
        ensures stays { Stays self.old self.new }
    {
        let before = self.world.pairs_made();
        let mut told = Vec::new(self.alloc);
        let answer = self.world.negate(&v, &mut told);
        self.close(line, before, &told, answer)
    }

    /// A value that is handed on (C17 6.5.2.2).
    pub fn accept(&mut self, unit: &TypedUnit, line: u32, v: Got) -> Result<Got, Failure>
        requires runnable { IsRunnable unit.now }
        ensures acted { Acted unit.now line (λ b. Accepts (worth_of v)) result self.old self.new }
        ensures stays { Stays self.old self.new }
    {
        let before = self.world.pairs_made();
        let mut told = Vec::new(self.alloc);
        let answer = pv_world::accept(v, &mut told);
        self.close(line, before, &told, answer)
    }

    /// What `*` gives (C17 6.5.3.2p4).
    pub fn follow(
        &mut self,
        unit: &TypedUnit,
        line: u32,
        nothing: bool,
        v: Got,
    ) -> Result<Got, Failure>
        requires runnable { IsRunnable unit.now }
        ensures acted { Acted unit.now line (λ b. Follows nothing (worth_of v)) result self.old self.new }
        ensures stays { Stays self.old self.new }
    {
        let before = self.world.pairs_made();
        let mut told = Vec::new(self.alloc);
        let answer = pv_world::follow(nothing, v, &mut told);
        self.close(line, before, &told, answer)
    }

    /// The place of a member (C17 6.5.2.3).
    pub fn select(
        &mut self,
        unit: &TypedUnit,
        line: u32,
        offset: u64,
        v: Got,
    ) -> Result<Got, Failure>
        requires runnable { IsRunnable unit.now }
        ensures acted { Acted unit.now line (λ b. Selects offset (worth_of v)) result self.old self.new }
        ensures stays { Stays self.old self.new }
    {
        let before = self.world.pairs_made();
        let mut told = Vec::new(self.alloc);
        let answer = self.world.select(offset, &v, &mut told);
        self.close(line, before, &told, answer)
    }

    /// The equality of two pointers (C17 6.5.9p6).
    pub fn equal(
        &mut self,
        unit: &TypedUnit,
        line: u32,
        negated: bool,
        v: Got,
        w: Got,
    ) -> Result<Got, Failure>
        requires runnable { IsRunnable unit.now }
        ensures acted { Acted unit.now line (λ b. Equals negated (worth_of v) (worth_of w)) result self.old self.new }
        ensures stays { Stays self.old self.new }
    {
        let before = self.world.pairs_made();
        let mut told = Vec::new(self.alloc);
        let answer = self.world.equal(negated, &v, &w, &mut told);
        self.close(line, before, &told, answer)
    }

    /// The order of two pointers (C17 6.5.8p5).
    pub fn order(
        &mut self,
        unit: &TypedUnit,
        line: u32,
        op: BinOp,
        v: Got,
        w: Got,
    ) -> Result<Got, Failure>
        requires runnable { IsRunnable unit.now }
        ensures acted { Acted unit.now line (λ b. Orders op (worth_of v) (worth_of w)) result self.old self.new }
        ensures stays { Stays self.old self.new }
    {
        let before = self.world.pairs_made();
        let mut told = Vec::new(self.alloc);
        let answer = self.world.order(op, &v, &w, &mut told);
        self.close(line, before, &told, answer)
    }

    /// A pointer of this type moved by so many elements (C17 6.5.6p8).
    #[inline(always)]
    pub fn shift(
        &mut self,
        unit: &TypedUnit,
        line: u32,
        minus: bool,
        pointer_first: bool,
        t: TypeId,
        v: Got,
        w: Got,
    ) -> Result<Got, Failure>
        requires runnable { IsRunnable unit.now }
        requires typed { t.0 < length unit.now.known.terms }
        ensures acted { Acted unit.now line (λ b. Moves minus pointer_first (element_size b (tree unit.now.known t.0)) (worth_of v) (worth_of w)) result self.old self.new }
        ensures stays { Stays self.old self.new }
    {
        let before = self.world.pairs_made();
        let mut told = Vec::new(self.alloc);
        let types = unit.types();
        let world = &mut self.world;
        let answer = shift_by(world, types, minus, pointer_first, t, &v, &w, &mut told);
        self.close(line, before, &told, answer)
    }

    /// The difference of two pointers of this type (C17 6.5.6p9).
    pub fn subtract(
        &mut self,
        unit: &TypedUnit,
        line: u32,
        t: TypeId,
        v: Got,
        w: Got,
    ) -> Result<Got, Failure>
        requires runnable { IsRunnable unit.now }
        requires typed { t.0 < length unit.now.known.terms }
        ensures acted { Acted unit.now line (λ b. Subtracts (element_size b (tree unit.now.known t.0)) (worth_of v) (worth_of w)) result self.old self.new }
        ensures stays { Stays self.old self.new }
    {
        let before = self.world.pairs_made();
        let mut told = Vec::new(self.alloc);
        let types = unit.types();
        let answer = subtract_by(&mut self.world, types, t, &v, &w, &mut told);
        self.close(line, before, &told, answer)
    }

    /// A member of a value (C17 6.5.2.3).
    pub fn part(
        &mut self,
        unit: &TypedUnit,
        line: u32,
        t: TypeId,
        offset: u64,
        v: Got,
    ) -> Result<Got, Failure>
        requires runnable { IsRunnable unit.now }
        requires typed { t.0 < length unit.now.known.terms }
        ensures acted { Acted unit.now line (λ b. TakesPart offset (lvalue b (tree unit.now.known t.0)) (worth_of v)) result self.old self.new }
        ensures stays { Stays self.old self.new }
    {
        let before = self.world.pairs_made();
        let mut told = Vec::new(self.alloc);
        let types = unit.types();
        let answer = part_of(&mut self.world, types, t, offset, &v, &mut told);
        self.close(line, before, &told, answer)
    }

    /// A value that is looked at, as a number (C17 6.8.4.2p5).
    pub fn need(&mut self, line: u32, v: Got) -> Result<i128, Failure>
        ensures needed { (u : Stored) → Always u self.old (λ b out es. Needed (act b line (Needs (worth_of v)) (state_of self.old out es)) result (state_of self.new out es)) }
        ensures stays { Stays self.old self.new }
    {
        let before = self.world.pairs_made();
        let mut told = Vec::new(self.alloc);
        let answer = pv_world::need(v, &mut told);
        self.close_number(line, before, &told, answer)
    }

    /// The place of an object in scope (C17 6.5.1p2).
    pub fn object(&mut self, unit: &TypedUnit, line: u32, o: u32) -> Result<Got, Failure>
        requires runnable { IsRunnable unit.now }
        requires named { o < length unit.now.objects }
        ensures acted { Acted unit.now line (λ b. NamesObject o) result self.old self.new }
        ensures stays { Stays self.old self.new }
    {
        let lasting = unit.object(o).lasting;
        let place = self.world.object_place(o, lasting);
        let before = self.world.pairs_made();
        let told = Vec::new(self.alloc);
        self.close(line, before, &told, Ok(Got::Scalar(Value::Pointer(place))))
    }

    /// The place of a function (C17 6.5.1p2, 6.3.2.1p4).
    pub fn function(&mut self, unit: &TypedUnit, line: u32, f: u32) -> Result<Got, Failure>
        requires runnable { IsRunnable unit.now }
        requires named { f < length unit.now.functions }
        ensures acted { Acted unit.now line (λ b. NamesFunction f) result self.old self.new }
        ensures stays { Stays self.old self.new }
    {
        let place = self.world.function_place(f);
        let before = self.world.pairs_made();
        let told = Vec::new(self.alloc);
        self.close(line, before, &told, Ok(Got::Scalar(Value::Pointer(place))))
    }

    /// The function that a value of this type points to (C17 6.5.2.2p1).
    pub fn find(&mut self, unit: &TypedUnit, line: u32, t: TypeId, v: &Got) -> Result<u32, Failure>
        requires runnable { IsRunnable unit.now }
        ensures found { Always unit.now self.old (λ b out es. Called (act b line (Finds (pointed_to (tree unit.now.known t.0)) (worth_of v.now)) (state_of self.old out es)) result (state_of self.new out es)) }
        ensures known { IfOk result (λ f. f < length unit.now.functions) }
        ensures stays { Stays self.old self.new }
    {
        let before = self.world.pairs_made();
        let mut told = Vec::new(self.alloc);
        let answer = callees::find(&mut self.world, unit, t, v, &mut told);
        self.close_called(line, before, &told, answer)
    }

    /// The place of a literal (C17 6.5.1p4).
    pub fn literal(&mut self, unit: &TypedUnit, line: u32, l: u32) -> Result<Got, Failure>
        requires runnable { IsRunnable unit.now }
        requires named { l < length unit.now.literals }
        ensures acted { Acted unit.now line (λ b. NamesLiteral l) result self.old self.new }
        ensures stays { Stays self.old self.new }
    {
        let place = self.world.literal_place(l);
        let before = self.world.pairs_made();
        let told = Vec::new(self.alloc);
        self.close(line, before, &told, Ok(Got::Scalar(Value::Pointer(place))))
    }
}
