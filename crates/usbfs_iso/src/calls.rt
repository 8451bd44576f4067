// The ten calls. Each reads the record from its image, makes the call by value and stores the record's image again.
// Bytes that are no image are read as a record that the call refuses with 8, and C is told 31.
ghost use Rattle.std.specs.Prelude.{[], Ok, Err};
ghost use Rattle.ledger.specs.Calls.{Call};
ghost use Rattle.from_c.specs.Told.{Returned};
ghost use Rattle.from_c.specs.Calls.{made_from_c};

use c_lists::{commit_listed, stop_listed};
use from_c::answered;
use image::read_image;

// The next slot to fill or to submit.
#[unsafe(no_mangle)]
pub extern "C" fn usbfs_iso_turn(image: &mut [u8], block: &mut [u8], out: &mut [u8]) -> u32
    ensures { Returned (made_from_c (Call.turn block.old) image.old out.old) result
        image.new block.new out.new }
{
    let reply = turn::turn(read_image(image), block);
    answered(reply, image, out)
}

// Commits so many bytes of the slot in hand.
#[unsafe(no_mangle)]
pub extern "C" fn usbfs_iso_commit(
    image: &mut [u8],
    bytes: u64,
    block: &mut [u8],
    out: &mut [u8],
) -> u32
    ensures { Returned (made_from_c (Call.commit bytes block.old) image.old out.old) result
        image.new block.new out.new }
{
    let reply = commit::commit(read_image(image), bytes as usize, block);
    answered(reply, image, out)
}

// Commits the whole capacity.
#[unsafe(no_mangle)]
pub extern "C" fn usbfs_iso_commit_full(image: &mut [u8], block: &mut [u8], out: &mut [u8]) -> u32
    ensures { Returned (made_from_c (Call.commit_full block.old) image.old out.old) result
        image.new block.new out.new }
{
    let reply = commit::commit_full(read_image(image), block);
    answered(reply, image, out)
}

// Commits packets of these lengths.
#[unsafe(no_mangle)]
pub extern "C" fn usbfs_iso_commit_packets(
    image: &mut [u8],
    lengths: &[u8],
    block: &mut [u8],
    out: &mut [u8],
) -> u32
    ensures { Returned (made_from_c (Call.commit_packets lengths.now block.old)
        image.old out.old) result
        image.new block.new out.new }
{
    let reply = commit_listed(read_image(image), lengths, block);
    answered(reply, image, out)
}

// The kernel accepted the slot.
#[unsafe(no_mangle)]
pub extern "C" fn usbfs_iso_submitted_accepted(
    image: &mut [u8],
    block: &mut [u8],
    out: &mut [u8],
) -> u32
    ensures { Returned (made_from_c (Call.submitted (Ok tt) block.old)
        image.old out.old) result
        image.new block.new out.new }
{
    let reply = submitted::submitted(read_image(image), Ok(()), block);
    answered(reply, image, out)
}

// The kernel refused the slot with this errno.
#[unsafe(no_mangle)]
pub extern "C" fn usbfs_iso_submitted_errno(
    image: &mut [u8],
    error: u32,
    block: &mut [u8],
    out: &mut [u8],
) -> u32
    ensures { Returned (made_from_c (Call.submitted (Err error) block.old)
        image.old out.old) result
        image.new block.new out.new }
{
    let reply = submitted::submitted(read_image(image), Err(error), block);
    answered(reply, image, out)
}

// The kernel had nothing to give back, or an error.
#[unsafe(no_mangle)]
pub extern "C" fn usbfs_iso_reaped_errno(
    image: &mut [u8],
    error: u32,
    block: &[u8],
    out: &mut [u8],
) -> u32
    ensures { Returned (made_from_c (Call.reaped (Err error) block.now)
        image.old out.old) result
        image.new block.now out.new }
{
    let reply = reaped::reaped(read_image(image), Err(error), block);
    answered(reply, image, out)
}

// The kernel gave back the URB at this address.
#[unsafe(no_mangle)]
pub extern "C" fn usbfs_iso_reaped_address(
    image: &mut [u8],
    address: u64,
    block: &[u8],
    out: &mut [u8],
) -> u32
    ensures { Returned (made_from_c (Call.reaped (Ok address) block.now)
        image.old out.old) result
        image.new block.now out.new }
{
    let reply = reaped::reaped(read_image(image), Ok(address as usize), block);
    answered(reply, image, out)
}

// Puts the slot in hand back unsent.
#[unsafe(no_mangle)]
pub extern "C" fn usbfs_iso_give_back(image: &mut [u8], out: &mut [u8]) -> u32
    ensures { Returned (made_from_c Call.give_back image.old out.old) result
        image.new [] out.new }
{
    let reply = control::give_back(read_image(image));
    answered(reply, image, out)
}

// Starts the stream.
#[unsafe(no_mangle)]
pub extern "C" fn usbfs_iso_start(image: &mut [u8], out: &mut [u8]) -> u32
    ensures { Returned (made_from_c Call.start image.old out.old) result
        image.new [] out.new }
{
    let reply = control::start(read_image(image));
    answered(reply, image, out)
}

// Stops the stream and lists the slots to discard.
#[unsafe(no_mangle)]
pub extern "C" fn usbfs_iso_stop(image: &mut [u8], list: &mut [u8], out: &mut [u8]) -> u32
    ensures { Returned (made_from_c (Call.stop list.old) image.old out.old) result
        image.new list.new out.new }
{
    let reply = stop_listed(read_image(image), list);
    answered(reply, image, out)
}

// Whether every slot has come back.
#[unsafe(no_mangle)]
pub extern "C" fn usbfs_iso_finish(image: &mut [u8], out: &mut [u8]) -> u32
    ensures { Returned (made_from_c Call.finish image.old out.old) result
        image.new [] out.new }
{
    let reply = control::finish(read_image(image));
    answered(reply, image, out)
}
