// The next stretch of sound, for C.
ghost use Rattle.figures.specs.Figures.{Figured};
ghost use Rattle.figures.specs.Stretches.{stretch_from_c};

use encoding::write_numbers;
use stretch::{Positions, next_stretch};

// The stretch's five numbers, a refused one's too. Any flag but 0 is set.
#[tactic(auto, unfolding(crate::specs::Stretches::stretch_from_c, crate::specs::Stretches::stretch_figures))]
pub fn stretch_figures(
    programme: &[u8],
    message: &[u8],
    message_flag: u32,
    capacity: u64,
    programme_at: u64,
    message_at: u64,
    out: &mut [u8],
) -> u32
    ensures { Figured (stretch_from_c programme.now message.now message_flag capacity programme_at
        message_at out.old) result out.new }
{
    let at = Positions {
        programme: programme_at as usize,
        message: message_at as usize,
    };
    let s = next_stretch(programme, message, message_flag != 0, capacity as usize, at);
    let numbers = [
        s.source_number(),
        s.start as u64,
        s.len as u64,
        s.next.programme as u64,
        s.next.message as u64,
    ];
    write_numbers(&numbers, out);
    s.refusal()
}
