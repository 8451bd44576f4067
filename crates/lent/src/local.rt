// The ten calls by value, by way of the lent ones: each lends its record to the call and hands it back. For
// programs that keep their record by value.
ghost use Rattle.std.specs.Prelude.{[]};
ghost use Rattle.ledger.specs.Calls.{Call};
ghost use Rattle.ledger.specs.Told.{Told};

use stream::{Reply, Stream};

// What turn::turn promises.
pub fn turn(mut s: Stream, block: &mut [u8]) -> Reply
    ensures { Told (Call.turn block.old) s result.answer result.stream block.new }
{
    let answer = crate::turn(&mut s, block);
    Reply { stream: s, answer }
}

// What commit::commit promises.
pub fn commit(mut s: Stream, bytes: usize, block: &mut [u8]) -> Reply
    ensures { Told (Call.commit bytes block.old) s result.answer result.stream block.new }
{
    let answer = crate::commit(&mut s, bytes, block);
    Reply { stream: s, answer }
}

// What commit::commit_full promises.
pub fn commit_full(mut s: Stream, block: &mut [u8]) -> Reply
    ensures { Told (Call.commit_full block.old) s result.answer result.stream block.new }
{
    let answer = crate::commit_full(&mut s, block);
    Reply { stream: s, answer }
}

// What commit::commit_packets promises.
pub fn commit_packets(mut s: Stream, lengths: &[usize], block: &mut [u8]) -> Reply
    ensures { Told (Call.commit_packets lengths.now block.old)
        s result.answer result.stream block.new }
{
    let answer = crate::commit_packets(&mut s, lengths, block);
    Reply { stream: s, answer }
}

// What submitted::submitted promises.
pub fn submitted(mut s: Stream, reply: Result<(), u32>, block: &mut [u8]) -> Reply
    ensures { Told (Call.submitted reply block.old) s result.answer result.stream block.new }
{
    let answer = crate::submitted(&mut s, reply, block);
    Reply { stream: s, answer }
}

// What reaped::reaped promises.
pub fn reaped(mut s: Stream, reply: Result<usize, u32>, block: &[u8]) -> Reply
    ensures { Told (Call.reaped reply block.now) s result.answer result.stream block.now }
{
    let answer = crate::reaped(&mut s, reply, block);
    Reply { stream: s, answer }
}

// What control::give_back promises.
pub fn give_back(mut s: Stream) -> Reply
    ensures { Told Call.give_back s result.answer result.stream [] }
{
    let answer = crate::give_back(&mut s);
    Reply { stream: s, answer }
}

// What control::start promises.
pub fn start(mut s: Stream) -> Reply
    ensures { Told Call.start s result.answer result.stream [] }
{
    let answer = crate::start(&mut s);
    Reply { stream: s, answer }
}

// What control::stop promises.
pub fn stop(mut s: Stream, list: &mut [usize]) -> Reply
    ensures { Told (Call.stop list.old) s result.answer result.stream list.new }
{
    let answer = crate::stop(&mut s, list);
    Reply { stream: s, answer }
}

// What control::finish promises.
pub fn finish(mut s: Stream) -> Reply
    ensures { Told Call.finish s result.answer result.stream [] }
{
    let answer = crate::finish(&mut s);
    Reply { stream: s, answer }
}
