// The ten calls on a record that is lent: each takes the record out, makes the call by value and stores the record
// that it gives.
#![tactic(auto)]

pub mod local;

ghost use Rattle.std.specs.Prelude.{[]};
ghost use Rattle.ledger.specs.Calls.{Call};
ghost use Rattle.ledger.specs.Told.{Told};

use stream::{Answer, Stream};

// turn::turn on a lent record.
pub fn turn(s: &mut Stream, block: &mut [u8]) -> Answer
    ensures { Told (Call.turn block.old) s.old result s.new block.new }
{
    let reply = turn::turn(*s, block);
    *s = reply.stream;
    reply.answer
}

// commit::commit on a lent record.
pub fn commit(s: &mut Stream, bytes: usize, block: &mut [u8]) -> Answer
    ensures { Told (Call.commit bytes block.old)
        s.old result s.new block.new }
{
    let reply = commit::commit(*s, bytes, block);
    *s = reply.stream;
    reply.answer
}

// commit::commit_full on a lent record.
pub fn commit_full(s: &mut Stream, block: &mut [u8]) -> Answer
    ensures { Told (Call.commit_full block.old)
        s.old result s.new block.new }
{
    let reply = commit::commit_full(*s, block);
    *s = reply.stream;
    reply.answer
}

// commit::commit_packets on a lent record.
pub fn commit_packets(s: &mut Stream, lengths: &[usize], block: &mut [u8]) -> Answer
    ensures { Told (Call.commit_packets lengths.now block.old)
        s.old result s.new block.new }
{
    let reply = commit::commit_packets(*s, lengths, block);
    *s = reply.stream;
    reply.answer
}

// submitted::submitted on a lent record.
pub fn submitted(s: &mut Stream, reply: Result<(), u32>, block: &mut [u8]) -> Answer
    ensures { Told (Call.submitted reply block.old)
        s.old result s.new block.new }
{
    let sent = submitted::submitted(*s, reply, block);
    *s = sent.stream;
    sent.answer
}

// reaped::reaped on a lent record.
pub fn reaped(s: &mut Stream, reply: Result<usize, u32>, block: &[u8]) -> Answer
    ensures { Told (Call.reaped reply block.now)
        s.old result s.new block.now }
{
    let done = reaped::reaped(*s, reply, block);
    *s = done.stream;
    done.answer
}

// control::give_back on a lent record.
pub fn give_back(s: &mut Stream) -> Answer
    ensures { Told Call.give_back s.old result s.new [] }
{
    let reply = control::give_back(*s);
    *s = reply.stream;
    reply.answer
}

// control::start on a lent record.
pub fn start(s: &mut Stream) -> Answer
    ensures { Told Call.start s.old result s.new [] }
{
    let reply = control::start(*s);
    *s = reply.stream;
    reply.answer
}

// control::stop on a lent record.
pub fn stop(s: &mut Stream, list: &mut [usize]) -> Answer
    ensures { Told (Call.stop list.old) s.old result s.new list.new }
{
    let reply = control::stop(*s, list);
    *s = reply.stream;
    reply.answer
}

// control::finish on a lent record.
pub fn finish(s: &mut Stream) -> Answer
    ensures { Told Call.finish s.old result s.new [] }
{
    let reply = control::finish(*s);
    *s = reply.stream;
    reply.answer
}
