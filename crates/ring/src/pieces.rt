// Refusal 8's test of the ring and the hand, whatever they hold.
ghost use Rattle.std.specs.Prelude.{◌≡◌, ◌≤◌, length};
ghost use Rattle.ring.specs.Parts.{queue_of};
ghost use Rattle.ring.specs.Sound.{sound_ring};
ghost use Rattle.ring.specs.Tests.{hand_test, home_of, out_test, count_test};

use crate::{Hand, Ring};
use mask::Mask;

// Internal: walks the queue from the slots that are Filling. A slot that was met before is there twice.
fn walk_queue(start: Mask, queue: &[u8], n: usize) -> Option<Mask>
    requires { length queue.now ≤ 256 }
    ensures { result ≡ home_of n start (length queue.now) queue.now }
{
    let mut seen = [start.a, start.b, start.c, start.d];
    for &place in queue {
        let slot = usize::from(place);
        let bit = 1u64 << (slot % 64);
        let was = seen[slot / 64];
        if n <= slot || was & bit != 0 {
            return None;
        }
        seen[slot / 64] = was | bit;
    }
    let [a, b, c, d] = seen;
    Some(Mask { a, b, c, d })
}

impl Ring {
    // The hand's slot is the only Filling one, none when Idle.
    pub fn hand_sound(&self, n: usize, hand: Hand) -> bool
        ensures { result ≡ hand_test n self.now hand }
    {
        let filling = self.states.filling;
        hand.within(n) && filling.symmetric_difference(hand.mask()).is_empty()
    }

    // The slots at home, in the queue or Filling; None where one is there twice. `places` is what the type says: a
    // caller that has the ring behind a reference knows it by this.
    #[tactic(auto, using(crate::proofs::Walk::too_long), unfolding(crate::specs::Parts::queue_of))]
    pub fn home(&self, n: usize) -> Option<Mask>
        ensures slots { result ≡ home_of n self.now.states.filling self.now.free_len (queue_of self.now) }
        ensures places { length self.now.free ≡ 256 }
    {
        // The places are copied out: lent from the ring, they would have the compiler store all of it.
        let free = self.free;
        walk_queue(self.states.filling, free.get(..self.free_len)?, n)
    }

    // Every slot below n is at home or in one of the other two masks, and no other is.
    #[inline(always)]
    pub fn out_sound(&self, n: usize, home: Option<Mask>) -> bool
        ensures { result ≡ out_test n self.now home }
    {
        let Some(slots) = home else {
            return false;
        };
        let flying = self.states.in_flight;
        let discarding = self.states.discarding;
        let twice = flying.intersection(discarding);
        let placed = slots.symmetric_difference(flying.union(discarding));
        twice
            .union(placed.symmetric_difference(Mask::below(n)))
            .is_empty()
    }

    // The out count is how many of n slots are not at home.
    #[tactic(auto, unfolding(crate::specs::Tests::count_test))]
    pub fn count_sound(&self, n: usize, hand: Hand) -> bool
        ensures { result ≡ count_test n self.now hand }
    {
        let home = self.free_len.wrapping_add(hand.count());
        home <= n && self.in_flight == n - home
    }

    // Whether the ring of n slots and the hand break nothing of refusal 8's list, whatever they hold.
    #[inline(always)]
    pub fn sound(&self, n: usize, hand: Hand) -> bool
        ensures { result ≡ sound_ring n self.now hand }
    {
        if 256 < n {
            return false;
        }
        let home = self.home(n);
        self.hand_sound(n, hand) & self.out_sound(n, home) & self.count_sound(n, hand)
    }
}
