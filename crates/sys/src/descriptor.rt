// A packet's descriptor, and reading and writing it in a lent slice.
ghost use Rattle.std.specs.Prelude.{◌≡◌, ◌+◌, ◌≤◌, length};
ghost use Rattle.sys.specs.Bytes.{store};
ghost use Rattle.sys.specs.Descriptor.{desc_at, desc_read, desc_bytes, desc_size, packet_of};

use crate::field::{get_u32, has_room, lay};
use error::Error;

// struct usbdevfs_iso_packet_desc.
#[derive(Clone, Copy)]
pub struct IsoPacketDesc {
    pub length: u32,
    pub actual_length: u32,
    pub status: u32,
}

impl IsoPacketDesc {
    pub const LENGTH: usize = 0;

    pub const ACTUAL_LENGTH: usize = 4;

    pub const STATUS: usize = 8;

    pub const SIZE: usize = 12;

    // The descriptor of a packet that is to be sent.
    pub fn new(length: u32) -> IsoPacketDesc
        ensures { result ≡ packet_of length }
    {
        IsoPacketDesc {
            length,
            actual_length: 0,
            status: 0,
        }
    }

    // Internal: stores the descriptor's 12 bytes at `at`.
    #[tactic(auto, unfolding(crate::specs::Descriptor::desc_bytes, crate::specs::Bytes::laid, crate::specs::Bytes::le))]
    pub fn write(self, s: &mut [u8], at: usize)
        requires { at + desc_size ≤ length s.old }
        ensures { s.new ≡ store at (desc_bytes self) s.old }
    {
        lay(
            s,
            at,
            &[
                (4, self.length as u64),
                (4, self.actual_length as u64),
                (4, self.status as u64),
            ],
        )
    }

    // Internal: the descriptor that stands at `at`.
    #[tactic(auto, unfolding(crate::specs::Descriptor::desc_at))]
    pub fn load(s: &[u8], at: usize) -> IsoPacketDesc
        requires { at + desc_size ≤ length s.now }
        ensures { result ≡ desc_at at s.now }
    {
        IsoPacketDesc {
            length: get_u32(s, at + IsoPacketDesc::LENGTH),
            actual_length: get_u32(s, at + IsoPacketDesc::ACTUAL_LENGTH),
            status: get_u32(s, at + IsoPacketDesc::STATUS),
        }
    }

    // The descriptor that stands at `at`, where the slice has room for one there.
    #[tactic(auto, unfolding(crate::specs::Descriptor::desc_read))]
    pub fn read(s: &[u8], at: usize) -> Result<IsoPacketDesc, Error>
        ensures { result ≡ desc_read at s.now }
    {
        if has_room(s, at, IsoPacketDesc::SIZE) {
            Ok(IsoPacketDesc::load(s, at))
        } else {
            Err(Error::BlockLength)
        }
    }
}
