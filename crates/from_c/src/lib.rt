// What C is told by the functions that it calls (crates/usbfs_iso has them): eight numbers in a lent slice, and the
// number that a call returns.
#![tactic(auto)]

ghost use Rattle.std.specs.Prelude.{◌≡◌, [], ◌∷◌, map};
ghost use Rattle.stream.specs.Numbers.{numbers_of, figures_of};
ghost use Rattle.encoding.specs.Words.{places, written};
ghost use Rattle.from_c.specs.Told.{Returned, unsigned64, eight_of, told};
ghost use Rattle.from_c.specs.FromC.{answered_by, Writable};
ghost use Rattle.error.specs.declared.Error.{Error};
ghost use Rattle.stream.specs.declared.Answer.{Answer};

use encoding::write_numbers;
use error::Error;
use image::write_image;
use stream::{Answer, Completion, Reply};

fn eight(kind: u64, value: u64) -> [u64; 8]
    ensures { result ≡ (kind ∷ value ∷ 0 ∷ 0 ∷ 0 ∷ 0 ∷ 0 ∷ 0 ∷ []) }
{
    [kind, value, 0, 0, 0, 0, 0, 0]
}

fn completion_numbers(c: Completion) -> [u64; 8]
    ensures { result ≡ places 8 (5 ∷ map unsigned64 (figures_of c)) }
{
    [
        5,
        i64::from(c.status).cast_unsigned(),
        c.actual_bytes,
        c.requested_bytes,
        c.short_bytes,
        c.packet_errors,
        u64::from(c.was_discarded),
        0,
    ]
}

// The eight numbers of an answer.
fn eight_of(answer: Answer) -> [u64; 8]
    ensures { result ≡ eight_of answer }
{
    match answer {
        Answer::Refused(e) => eight(0, e.value()),
        Answer::Done => eight(1, 0),
        Answer::Stopped(count) => eight(1, count as u64),
        Answer::Nothing => eight(2, 0),
        Answer::Slot(i) => eight(3, i as u64),
        Answer::Submit(i) => eight(4, i as u64),
        Answer::Completed(c) => completion_numbers(c),
        Answer::Foreign => eight(6, 0),
        Answer::Yes => eight(7, 0),
    }
}

// 0, or the refusal's number.
#[tactic(auto, unfolding(stream::specs::Numbers::numbers_of))]
fn number_of(answer: Answer) -> u32
    ensures { result ≡ (numbers_of answer).number }
{
    match answer {
        Answer::Refused(e) => e.number(),
        _ => 0,
    }
}

// Tells an answer: its eight numbers, and 0 or the refusal's number.
#[tactic(auto, unfolding(crate::specs::Told::told))]
pub fn tell(answer: Answer, out: &mut [u8]) -> u32
    ensures { Returned (told answer [] [] out.old) result [] [] out.new }
{
    write_numbers(&eight_of(answer), out);
    number_of(answer)
}

// 31: the bytes are not the image of a sound record.
pub fn not_an_image(out: &mut [u8]) -> u32
    ensures { Returned (told (Answer.Refused Error.NotAnImage) [] [] out.old) result [] [] out.new }
{
    tell(Answer::Refused(Error::NotAnImage), out)
}

// Internal: what a call gave, told to C. The bytes of a record that 8 refuses were not an image, and stay.
pub fn answered(reply: Reply, image: &mut [u8], out: &mut [u8]) -> u32
    requires { Writable reply image.old }
    ensures { Returned (answered_by reply image.old out.old) result image.new []
        out.new }
{
    if number_of(reply.answer) == 8 {
        return not_an_image(out);
    }
    write_image(reply.stream, image);
    tell(reply.answer, out)
}
