//! A wire in memory.
ghost use Rattle.std.specs.Prelude.{◌≡◌, ◌<◌, [], true, length, IsTrue, IsOk, IfOk, OnOk, map};
ghost use Rattle.chain_sim.specs.Places.{is_chain};
ghost use Rattle.link_cable.specs.Wires.{SendAnswer, SendCarries, HasReceived, ReceiveCarries, KeepsLink, HasRoom, IsWireKept, IsGoodWire};
ghost use Rattle.link_cable.specs.MemWires.{over_sound, over_some};

use crate::waiting::{MOST_WAITING, Waiting};
use crate::wire::Wire;
use dev_card::Device;
use link_server::{Link, raise};
use tool_io::Failed;

/// A wire to a link in memory, over the devices at some places of a lent rack, whose calls with the listed numbers fail.
///
/// It tells the link, its board and the answers, of which at most 64 wait. Calls of both sorts are numbered together,
/// from 1, and the number stays at 4,294,967,295 once it is reached. A send takes all its bytes, but if waiting answers
/// and bytes are together more than 64, or its number is listed; then it takes none, and fails. A receive gives the
/// waiting answers that fit, the oldest first; a listed one gives none, and fails. A call that fails raises the count of
/// faults by one, up to the last value of 64 bits, and nothing else does. It is steady exactly if its list is empty.
#[derive(Drop)]
pub struct MemWireOf<'a, D> {
    rack: &'a mut Vec<D>,
    places: &'a [u32],
    link: Link,
    waiting: Waiting,
    failing: Vec<u32>,
    number: u32,
    faults: u64,
}

/// A wire over a rack of boxed devices.
pub type MemWire<'a> = MemWireOf<'a, Box<dyn Device>>;

impl<'a, D: Device> MemWireOf<'a, D> {
    ghost use Rattle.link_cable.specs.MemWires.{IsOverRack, IsNewWire, mem_told, mem_steady, mem_ready};

    /// A wire to a new link, over the devices at these places, with no waiting answer. There is at least one place, the
    /// places differ, and each has a fitted device. `failing` has the numbers of the calls that fail.
    pub fn over(rack: &'a mut Vec<D>, places: &'a [u32], failing: Vec<u32>) -> MemWireOf<'a, D>
        requires chain { IsTrue (is_chain (map D.fitted rack.old.items) places.now) }
        ensures same_rack { IsOverRack result rack.entry }
        ensures new { IsNewWire result rack.old.items places.now failing.items }
        ensures ready { mem_ready D.fitted result ≡ true }
        ensures good { failing.items ≡ [] → IsGoodWire (mem_told D.fitted result) (mem_steady result) }
    {
        MemWireOf {
            rack,
            places,
            link: Link::new(),
            waiting: Waiting::new(),
            failing,
            number: 0,
            faults: 0,
        }
    }
}

impl<D: Device> Wire for MemWireOf<'_, D> {
    ghost use Rattle.link_cable.specs.MemWires.{mem_told, MemCarries, mem_steady, mem_ready, mem_faults, IsMemLast, SendsExactly, GivesExactly};
    ghost use Rattle.link_cable.specs.WireLaws.{none_told, both_told};

    ghost told = { mem_told D.fitted };

    ghost carried = { MemCarries D.fitted };

    ghost is_steady = { mem_steady };

    ghost is_ready = { mem_ready D.fitted };

    ghost faults = { mem_faults };

    ghost is_last = { IsMemLast };

    fn send(&mut self, bytes: &[u8]) -> Result<u32, Failed>
        requires { mem_ready D.fitted self.old ≡ true }
        ensures sent { SendAnswer (mem_told D.fitted self.old) bytes.now result (mem_told D.fitted self.new) }
        ensures went { SendCarries (MemCarries D.fitted) self.old bytes.now result self.new }
        ensures room { HasRoom (mem_told D.fitted self.old) (mem_steady self.old) (length bytes.now) → IsOk result }
        ensures steady { OnOk result (mem_steady self.old ≡ true → mem_steady self.new ≡ true) }
        ensures kept { IsWireKept (mem_ready D.fitted) mem_faults IsMemLast self.old self.new result }
        ensures exact { SendsExactly self.old bytes.now result self.new }
    {
        self.number = self.number.saturating_add(1);
        let room = self.waiting.room();
        if room < bytes.len() || self.failing.contains(&self.number) {
            raise(&mut self.faults);
            return Err(Failed);
        }
        let mut answers = [0u8; MOST_WAITING];
        let fed = self
            .link
            .feed_devices(self.rack, self.places, bytes, &mut answers);
        self.waiting.put(&answers[..fed.answered as usize]);
        Ok(bytes.len() as u32)
    }

    fn receive(&mut self, into: &mut [u8]) -> Result<u32, Failed>
        requires ready { mem_ready D.fitted self.old ≡ true }
        requires some { 0 < length into.old }
        ensures length { length into.new ≡ length into.old }
        ensures received { IfOk result (λ n.
            HasReceived (mem_told D.fitted self.old) n into.new (mem_told D.fitted self.new)) }
        ensures came { ReceiveCarries (MemCarries D.fitted) self.old into.new result self.new }
        ensures link { KeepsLink (mem_told D.fitted self.old) (mem_told D.fitted self.new) }
        ensures never { mem_steady self.old ≡ true → IsOk result }
        ensures steady { OnOk result (mem_steady self.old ≡ true → mem_steady self.new ≡ true) }
        ensures kept { IsWireKept (mem_ready D.fitted) mem_faults IsMemLast self.old self.new result }
        ensures exact { GivesExactly self.old (length into.old) result self.new }
    {
        self.number = self.number.saturating_add(1);
        if self.failing.contains(&self.number) {
            raise(&mut self.faults);
            return Err(Failed);
        }
        let n = self.waiting.give(into);
        Ok(n as u32)
    }

    ghost sound = { λ w s told. over_sound (map D.fitted w.rack.now.items) w.places.now w.link w.waiting s told };

    ghost some = { λ w s ready told. over_some (map D.fitted w.rack.now.items) w.places.now w.link w.waiting s ready told };

    ghost none_carried = { λ w. none_told (mem_told D.fitted w) };

    ghost both_carried = { λ a b c bytes more answers others first then. both_told (mem_told D.fitted a)
        (mem_told D.fitted b) (mem_told D.fitted c) bytes more answers others first then };
}
