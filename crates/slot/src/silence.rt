// A slot of silence.
ghost use Rattle.std.specs.Prelude.{◌≡◌, true, ◌<◌, length};
ghost use Rattle.layout.specs.Opening.{admissible, total_of, capacity_of};
ghost use Rattle.ledger.specs.Slot.{lengths_of, committed, silenced};

use crate::lengths::set_packet_lengths;
use layout::Setup;

// Internal: fills slot i's capacity with the silence byte and commits all of it. `fill` is lent the payload and no
// other byte.
#[cold]
pub fn fill_silence(setup: Setup, block: &mut [u8], i: usize)
    requires { (admissible setup ≡ true) × (i < setup.slots) × (length block.old ≡ total_of setup) }
    ensures { block.new
        ≡ committed setup i (lengths_of setup (capacity_of setup)) (silenced setup i block.old) }
{
    let at = setup.places(i);
    let payload = at.payload;
    let end = payload + at.capacity;
    block[payload..end].fill(setup.silence_byte);
    set_packet_lengths(setup, block, i, at.capacity)
}
