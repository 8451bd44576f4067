// The ring's slots and its free queue, the hand, and the test that they are sound.
// The queue is held front first, in the first free_len places of `free`. What stands behind it is never looked at and
// never changes.
#![tactic(auto)]

mod pieces;

ghost use Rattle.std.specs.Prelude.{◌≡◌, ℕ, ◌-◌, ◌<◌, ◌≤◌, true, List, [], ◌∷◌, ◌++◌, replicate};
ghost use Rattle.mask.specs.Masks.{mask_of};
ghost use Rattle.ring.specs.declared.SlotState.{SlotState};
ghost use Rattle.ring.specs.Slots.{is_discarding, is_out, holds, hand_within};
ghost use Rattle.ring.specs.Counts.{slot_numbers};
ghost use Rattle.ring.specs.Masks.{masks_of};
ghost use Rattle.ring.specs.Parts.{queue_of, state_of, Tabled, with_queue, free_ring};
ghost use Rattle.ring.specs.Tests.{in_hand};
ghost use Rattle.ring.specs.Moves.{taken, returned, marked_in_flight, discarded, completed};

use mask::Mask;

// What a slot is doing. Free: in the queue. Filling: in hand. InFlight: the kernel has it. Discarding: the kernel
// was asked to give it back.
#[derive(Clone, Copy)]
pub enum SlotState {
    Free,
    Filling,
    InFlight,
    Discarding,
}

// The states of all slots: a slot is in the mask of its state, and a Free one in none.
#[derive(Clone, Copy)]
pub struct SlotStates {
    pub filling: Mask,
    pub in_flight: Mask,
    pub discarding: Mask,
}

#[derive(Clone, Copy)]
pub struct Ring {
    pub states: SlotStates,
    pub free: [u8; 256],
    pub free_len: usize,
    pub in_flight: usize,
}

// The slot that the host has: being filled, to be submitted, or a silent one of a chain with `left` more to follow.
#[derive(Clone, Copy)]
pub enum Hand {
    Idle,
    Held(usize),
    Sending(usize),
    Silent(usize, usize),
}

// What taking the front slot leaves and finds.
#[derive(Clone, Copy)]
pub struct Taken {
    pub ring: Ring,
    pub slot: Option<usize>,
}

impl Hand {
    // The hand's slot as a mask; none where it is Idle.
    #[tactic(auto, unfolding(crate::specs::Slots::holds))]
    pub fn mask(self) -> Mask
        ensures { result ≡ mask_of (holds self) }
    {
        match self {
            Hand::Idle => Mask::none(),
            Hand::Held(slot) | Hand::Sending(slot) | Hand::Silent(slot, _) => Mask::only(slot),
        }
    }

    // How many slots it has.
    #[tactic(auto, unfolding(crate::specs::Tests::in_hand))]
    pub fn count(self) -> usize
        ensures { result ≡ in_hand self }
    {
        match self {
            Hand::Idle => 0,
            Hand::Held(_) | Hand::Sending(_) | Hand::Silent(_, _) => 1,
        }
    }

    // Whether the hand's slot is one of n, and what is left of a silent chain 0 or 1.
    #[tactic(auto, unfolding(crate::specs::Slots::hand_within))]
    pub fn within(self, n: usize) -> bool
        ensures { result ≡ hand_within n self }
    {
        match self {
            Hand::Idle => true,
            Hand::Held(slot) | Hand::Sending(slot) => slot < n,
            Hand::Silent(slot, left) => slot < n && left <= 1,
        }
    }
}

impl SlotStates {
    // Every slot Free.
    pub fn all_free() -> SlotStates
        ensures { result ≡ masks_of (λ i. SlotState.Free) }
    {
        SlotStates {
            filling: Mask::none(),
            in_flight: Mask::none(),
            discarding: Mask::none(),
        }
    }
}

// Internal: the queue 0..n-1 in its places.
fn slot_numbers(n: usize) -> [u8; 256]
    requires { n ≤ 256 }
    ensures { result ≡ slot_numbers n ++ replicate (256 - n) 0 }
{
    let mut free = [0; 256];
    for (i, place) in free[..n].iter_mut().enumerate() {
        *place = i as u8;
    }
    free
}

impl Ring {
    // Internal: a ring of n slots, all of them in the queue.
    #[tactic(auto, unfolding(crate::specs::Parts::free_ring))]
    pub fn new(n: usize) -> Ring
        requires { n ≤ 256 }
        ensures { result ≡ free_ring n }
    {
        Ring {
            states: SlotStates::all_free(),
            free: slot_numbers(n),
            free_len: n,
            in_flight: 0,
        }
    }

    // Internal: whether slot i is Discarding.
    pub fn is_discarding(&self, i: usize) -> bool
        requires { Tabled self.now × (i < 256) }
        ensures { result ≡ is_discarding (state_of self.now i) }
    {
        self.states.discarding.has(i)
    }

    // Internal: whether slot i is out: InFlight or Discarding.
    pub fn is_out(&self, i: usize) -> bool
        requires { Tabled self.now × (i < 256) }
        ensures { result ≡ is_out (state_of self.now i) }
    {
        self.states.in_flight.union(self.states.discarding).has(i)
    }

    // Internal: takes the front slot, if there is one, and marks it Filling.
    pub fn take_free(mut self) -> Taken
        requires { (self.free_len ≤ 256) × Tabled self
            × ((slot : ℕ) (rest : List ℕ) → queue_of self ≡ slot ∷ rest → state_of self slot ≡ SlotState.Free) }
        ensures { result ≡ taken self }
    {
        let len = self.free_len;
        if len == 0 {
            return Taken {
                ring: self,
                slot: None,
            };
        }
        // Read and moved in a copy: in the ring, they would have the compiler split or store all of it.
        let mut free = self.free;
        let slot = usize::from(free[0]);
        free.copy_within(1..len, 0);
        self.free = free;
        self.free_len = len - 1;
        self.states.filling = self.states.filling.with(slot);
        Taken {
            ring: self,
            slot: Some(slot),
        }
    }

    // Internal: slot i's number at the queue's end.
    fn push_free(mut self, i: usize) -> Ring
        requires { (i < 256) × (self.free_len < 256) }
        ensures { result ≡ with_queue self (queue_of self ++ (i ∷ [])) }
    {
        let mut free = self.free;
        free[self.free_len] = i as u8;
        self.free = free;
        self.free_len += 1;
        self
    }

    // Internal: puts slot i, which is in hand, at the queue's end, as Free.
    pub fn release(mut self, i: usize) -> Ring
        requires { (i < 256) × (self.free_len < 256) × Tabled self × (state_of self i ≡ SlotState.Filling) }
        ensures { result ≡ returned self i }
    {
        self.states.filling = self.states.filling.without(i);
        self.push_free(i)
    }

    // Internal: the kernel accepted slot i, which is in hand and counts as out from here on.
    pub fn mark_in_flight(mut self, i: usize) -> Ring
        requires { (i < 256) × (self.in_flight < 256) × Tabled self × (state_of self i ≡ SlotState.Filling) }
        ensures { result ≡ marked_in_flight self i }
    {
        self.in_flight += 1;
        self.states.filling = self.states.filling.without(i);
        self.states.in_flight = self.states.in_flight.with(i);
        self
    }

    // Internal: a discard of every InFlight slot was asked for. They stay out until the kernel gives them back.
    pub fn mark_discarding(mut self) -> Ring
        requires { Tabled self }
        ensures { result ≡ discarded self }
    {
        self.states.discarding = self.states.discarding.union(self.states.in_flight);
        self.states.in_flight = Mask::none();
        self
    }

    // Internal: the kernel gave slot i back; one less is out, and the slot is at the queue's end, as Free.
    pub fn complete(mut self, i: usize) -> Ring
        requires { (i < 256) × (self.free_len < 256) × (0 < self.in_flight) × Tabled self
            × (is_out (state_of self i) ≡ true) }
        ensures { result ≡ completed self i }
    {
        self.in_flight -= 1;
        self.states.in_flight = self.states.in_flight.without(i);
        self.states.discarding = self.states.discarding.without(i);
        self.push_free(i)
    }
}
