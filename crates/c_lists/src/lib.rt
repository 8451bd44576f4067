// The calls whose lists C lends as bytes: 8-byte numbers, a ragged end not counting. A list of any length is taken; as
// many of its numbers as can matter are read into a list of our own.
#![tactic(auto)]

ghost use Rattle.std.specs.Prelude.{◌≡◌, ◌*◌, ◌≤◌, length};
ghost use Rattle.sys.specs.Bytes.{store};
ghost use Rattle.ledger.specs.Commit.{commit_packets as commit_packets_rule};
ghost use Rattle.ledger.specs.Control.{stop as stop_rule};
ghost use Rattle.encoding.specs.Words.{words, list_in};
ghost use Rattle.from_c.specs.Calls.{on_list};
ghost use Rattle.from_c.specs.FromC.{Called};

use encoding::get_words;
use stream::{Reply, Stream};
use sys::field::put;

// One more than the most packets of a URB: a list of more lengths is refused as this many are.
const MOST_LENGTHS: usize = 129;

// The most slots of a ring: stop lists no more.
const MOST_SLOTS: usize = 256;

// Internal: stores numbers of 8 bytes from the start.
fn put_list(bytes: &mut [u8], values: &[usize])
    requires { 8 * length values.now ≤ length bytes.old }
    ensures { bytes.new ≡ store 0 (words 8 values.now) bytes.old }
{
    for (i, &value) in values.iter().enumerate() {
        put(bytes, 8 * i, 8, value as u64);
    }
}

// commit_packets of the lengths that stand in these bytes.
pub fn commit_listed(s: Stream, lengths: &[u8], block: &mut [u8]) -> Reply
    ensures { Called (commit_packets_rule (list_in lengths.now)) s block.old result block.new }
{
    let count = (lengths.len() / 8).min(MOST_LENGTHS);
    let mut numbers = [0; MOST_LENGTHS];
    get_words(lengths, &mut numbers[..count]);
    commit::commit_packets(s, &numbers[..count], block)
}

// stop with a list that stands in these bytes.
pub fn stop_listed(s: Stream, list: &mut [u8]) -> Reply
    ensures { Called (on_list stop_rule) s list.old result list.new }
{
    let count = (list.len() / 8).min(MOST_SLOTS);
    let mut slots = [0; MOST_SLOTS];
    get_words(list, &mut slots[..count]);
    let reply = control::stop(s, &mut slots[..count]);
    put_list(list, &slots[..count]);
    reply
}
