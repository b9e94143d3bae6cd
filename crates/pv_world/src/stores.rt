// Stores of initialisers and parameters, which check nothing.
ghost use Rattle.std.specs.Prelude.{◌≡◌, ◌<◌, ◌+◌, ◌-◌, List, None, length, All, true};
ghost use Rattle.pv_inst.specs.Table.{IsMadeIn};
ghost use Rattle.pv_object.specs.Reaching.{IsReach};
ghost use Rattle.pv_object.specs.Values.{IsOf};
ghost use Rattle.pv_object.specs.Answers.{IsMadeValue};
ghost use Rattle.pv_object.specs.Encoding.{size_of, encode};
ghost use Rattle.pv_world.specs.Objects.{instance_of, fills_object, put_at, base_in};
ghost use Rattle.pv_world.specs.Preconditions.{HasRoom};
ghost use Rattle.pv_watch.specs.declared.event.What.{What};
ghost use Rattle.pv_world.specs.Coming.{Did, no_worth};

use crate::got::Failure;
use crate::world::World;
use pv_inst::Tried;
use pv_object::{Reach, Scalar, Value, size_of};
use pv_prov::Prov;
use pv_shadow::Byte;
use pv_watch::What;

impl World {
    /// Every byte of an object becomes this value, or has none (6.7.9p10, p19, p21). Nothing is checked.
    pub fn fill(
        &mut self,
        object: u32,
        lasting: bool,
        size: u64,
        value: Option<u8>,
    ) -> Result<(), Failure>
        requires { HasRoom self.old (instance_of self.old object lasting) 0 size }
        ensures did { (told : List What) → Did no_worth (fills_object object lasting size value) result self.old self.new told told }
    {
        let byte = Byte {
            value,
            prov: Prov::Empty,
            index: None,
            mark: None,
        };
        let i = self.instance(object, lasting);
        let at = self.place_in(i, 0, size);
        self.memory.fill_bytes(&at, size, byte);
        Ok(())
    }

    /// The bytes of an object from an offset on become these (6.7.9p11, p14, 6.9.1p10). Nothing is checked.
    pub fn put_bytes(&mut self, object: u32, lasting: bool, offset: u64, bytes: &[Byte])
        requires room { HasRoom self.old (instance_of self.old object lasting) offset (length bytes.now) }
        requires made { All (λ b. IsMadeIn self.old.memory.table b.prov) bytes.now }
        ensures { self.new ≡ put_at self.old (base_in self.old (instance_of self.old object lasting) + offset) bytes.now }
    {
        let i = self.instance(object, lasting);
        self.put_in(i, offset, bytes);
    }

    // The bytes of an instance from an offset on become these.
    pub(crate) fn put_in(&mut self, i: u64, offset: u64, bytes: &[Byte])
        requires room { HasRoom self.old i offset (length bytes.now) }
        requires made { All (λ b. IsMadeIn self.old.memory.table b.prov) bytes.now }
        ensures { self.new ≡ put_at self.old (base_in self.old i + offset) bytes.now }
    {
        let at = self.place_in(i, offset, bytes.len() as u64);
        self.memory.write_bytes(&at, bytes);
    }

    // Whether an instance is live and has so many bytes from an offset on.
    #[tactic(auto, using(crate::proofs::Rooms::room_there, crate::proofs::Rooms::room_only, crate::proofs::Rooms::no_room))]
    pub(crate) fn has_live(&self, i: u64, offset: u64, n: u64) -> bool
        ensures there { result ≡ true → HasRoom self.now i offset n }
        ensures only { HasRoom self.now i offset n → result ≡ true }
    {
        match self.memory.instances().info(i) {
            Some(x) => u128::from(offset) + u128::from(n) <= u128::from(x.size),
            None => false,
        }
    }

    // A place within an instance.
    fn place_in(&self, i: u64, offset: u64, n: u64) -> Reach
        requires { HasRoom self.now i offset n }
        ensures address { result.address ≡ base_in self.now i + offset }
        ensures reached { IsReach self.now.memory.table result n }
    {
        self.memory.instances().well_formed();
        Reach {
            inst: i,
            offset,
            address: self.memory.instances().base(i) + offset,
            tried: Tried {
                pair: None,
                low: false,
                high: false,
            },
        }
    }

    /// A scalar value is stored in an object (6.7.9p11, 6.9.1p10), with this mark. Nothing is checked.
    #[inline(always)]
    pub fn put_scalar(
        &mut self,
        object: u32,
        lasting: bool,
        offset: u64,
        t: Scalar,
        v: &Value,
        mark: Option<u32>,
    )
        requires room { HasRoom self.old (instance_of self.old object lasting) offset (size_of t) }
        requires value { IsOf t v.now }
        requires made { IsMadeValue self.old.memory.table v.now }
        ensures { self.new ≡ put_at self.old (base_in self.old (instance_of self.old object lasting) + offset) (encode t v.now mark) }
    {
        let i = self.instance(object, lasting);
        let at = self.place_in(i, offset, size_of(t) as u64);
        self.memory.store(&at, t, v, mark);
    }
}
