// The URB header, and reading and writing it in a lent slice.
ghost use Rattle.std.specs.Prelude.{◌≡◌, ◌+◌, ◌≤◌, length};
ghost use Rattle.sys.specs.Bytes.{store};
ghost use Rattle.sys.specs.Header.{header_at, header_read, header_bytes, header_size, slot_header};

use crate::field::{get_i32, get_u8, get_u32, get_u64, has_room, lay, to_unsigned};
use crate::{URB_ISO_ASAP, URB_TYPE_ISO};
use error::Error;

// struct usbdevfs_urb without its packet descriptors, which follow it.
#[derive(Clone, Copy)]
pub struct Urb {
    pub typ: u8,
    pub endpoint: u8,
    pub status: i32,
    pub flags: u32,
    pub buffer: u64,
    pub buffer_length: i32,
    pub actual_length: i32,
    pub start_frame: i32,
    pub number_of_packets: i32,
    pub error_count: i32,
    pub signr: u32,
    pub usercontext: u64,
}

impl Urb {
    // Byte offsets of the fields, and the size of the whole.
    pub const TYPE: usize = 0;

    pub const ENDPOINT: usize = 1;

    pub const STATUS: usize = 4;

    pub const FLAGS: usize = 8;

    pub const BUFFER: usize = 16;

    pub const BUFFER_LENGTH: usize = 24;

    pub const ACTUAL_LENGTH: usize = 28;

    pub const START_FRAME: usize = 32;

    pub const NUMBER_OF_PACKETS: usize = 36;

    pub const ERROR_COUNT: usize = 40;

    pub const SIGNR: usize = 44;

    pub const USERCONTEXT: usize = 48;

    pub const SIZE: usize = 56;

    // The header of a slot that is to be submitted: isochronous, as soon as possible, with nothing sent yet.
    pub fn new(
        endpoint: u8,
        buffer: u64,
        buffer_length: i32,
        number_of_packets: i32,
        usercontext: u64,
    ) -> Urb
        ensures { result ≡ slot_header endpoint buffer buffer_length number_of_packets usercontext }
    {
        Urb {
            typ: URB_TYPE_ISO,
            endpoint,
            status: 0,
            flags: URB_ISO_ASAP,
            buffer,
            buffer_length,
            actual_length: 0,
            start_frame: 0,
            number_of_packets,
            error_count: 0,
            signr: 0,
            usercontext,
        }
    }

    // Internal: stores the header's 56 bytes at `at`, padding as zero.
    pub fn write(self, s: &mut [u8], at: usize)
        requires { at + header_size ≤ length s.old }
        ensures { s.new ≡ store at (header_bytes self) s.old }
    {
        lay(
            s,
            at,
            &[
                (1, self.typ as u64),
                (1, self.endpoint as u64),
                (2, 0),
                (4, to_unsigned(self.status) as u64),
                (4, self.flags as u64),
                (4, 0),
                (8, self.buffer),
                (4, to_unsigned(self.buffer_length) as u64),
                (4, to_unsigned(self.actual_length) as u64),
                (4, to_unsigned(self.start_frame) as u64),
                (4, to_unsigned(self.number_of_packets) as u64),
                (4, to_unsigned(self.error_count) as u64),
                (4, self.signr as u64),
                (8, self.usercontext),
            ],
        )
    }

    // Internal: the header that stands at `at`.
    #[tactic(auto, unfolding(crate::specs::Header::header_at))]
    pub fn load(s: &[u8], at: usize) -> Urb
        requires { at + header_size ≤ length s.now }
        ensures { result ≡ header_at at s.now }
    {
        Urb {
            typ: get_u8(s, at + Urb::TYPE),
            endpoint: get_u8(s, at + Urb::ENDPOINT),
            status: get_i32(s, at + Urb::STATUS),
            flags: get_u32(s, at + Urb::FLAGS),
            buffer: get_u64(s, at + Urb::BUFFER),
            buffer_length: get_i32(s, at + Urb::BUFFER_LENGTH),
            actual_length: get_i32(s, at + Urb::ACTUAL_LENGTH),
            start_frame: get_i32(s, at + Urb::START_FRAME),
            number_of_packets: get_i32(s, at + Urb::NUMBER_OF_PACKETS),
            error_count: get_i32(s, at + Urb::ERROR_COUNT),
            signr: get_u32(s, at + Urb::SIGNR),
            usercontext: get_u64(s, at + Urb::USERCONTEXT),
        }
    }

    // The header that stands at `at`, where the slice has room for one there.
    #[tactic(auto, unfolding(crate::specs::Header::header_read))]
    pub fn read(s: &[u8], at: usize) -> Result<Urb, Error>
        ensures { result ≡ header_read at s.now }
    {
        if has_room(s, at, Urb::SIZE) {
            Ok(Urb::load(s, at))
        } else {
            Err(Error::BlockLength)
        }
    }
}
