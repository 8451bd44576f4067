// A header read through a view of its block: each field by its offset there.
#![tactic(auto)]

ghost use Rattle.std.specs.Prelude.{◌≡◌, ◌+◌, ◌≤◌, length};
ghost use Rattle.sys.specs.Header.{header_at, header_size};
ghost use Rattle.urb_view.specs.Viewed.{fields_of, fields_read};

use error::Error;
use sys::Urb;
use sys::field::{get_i32, get_u64, has_room};

// A header of a block: the block, and the offset where the header starts.
#[derive(Clone, Copy)]
pub struct UrbView<'a> {
    pub block: &'a [u8],
    pub at: usize,
}

// The fields that the ring reads.
#[derive(Clone, Copy)]
pub struct UrbFields {
    pub status: i32,
    pub buffer_length: i32,
    pub actual_length: i32,
    pub error_count: i32,
    pub usercontext: u64,
}

impl<'a> UrbView<'a> {
    pub fn new(block: &'a [u8], at: usize) -> UrbView<'a>
        ensures { result ≡ record { block = block.entry; at = at } }
    {
        UrbView { block, at }
    }

    // Internal: the header's status.
    #[tactic(auto, unfolding(sys::specs::Header::header_at))]
    pub fn status(self) -> i32
        requires { self.at + header_size ≤ length self.block.now }
        ensures { result ≡ (header_at self.entry.at self.entry.block.now).status }
    {
        get_i32(self.block, self.at + Urb::STATUS)
    }

    // Internal: its buffer length.
    #[tactic(auto, unfolding(sys::specs::Header::header_at))]
    pub fn buffer_length(self) -> i32
        requires { self.at + header_size ≤ length self.block.now }
        ensures { result ≡ (header_at self.entry.at self.entry.block.now).buffer_length }
    {
        get_i32(self.block, self.at + Urb::BUFFER_LENGTH)
    }

    // Internal: its actual length.
    #[tactic(auto, unfolding(sys::specs::Header::header_at))]
    pub fn actual_length(self) -> i32
        requires { self.at + header_size ≤ length self.block.now }
        ensures { result ≡ (header_at self.entry.at self.entry.block.now).actual_length }
    {
        get_i32(self.block, self.at + Urb::ACTUAL_LENGTH)
    }

    // Internal: its error count.
    #[tactic(auto, unfolding(sys::specs::Header::header_at))]
    pub fn error_count(self) -> i32
        requires { self.at + header_size ≤ length self.block.now }
        ensures { result ≡ (header_at self.entry.at self.entry.block.now).error_count }
    {
        get_i32(self.block, self.at + Urb::ERROR_COUNT)
    }

    // Internal: its cookie.
    #[tactic(auto, unfolding(sys::specs::Header::header_at))]
    pub fn usercontext(self) -> u64
        requires { self.at + header_size ≤ length self.block.now }
        ensures { result ≡ (header_at self.entry.at self.entry.block.now).usercontext }
    {
        get_u64(self.block, self.at + Urb::USERCONTEXT)
    }
}

// Internal: the fields of the header that stands at `at`, each read through one view.
#[tactic(auto, unfolding(crate::specs::Viewed::fields_of))]
pub fn fields(block: &[u8], at: usize) -> UrbFields
    requires { at + header_size ≤ length block.now }
    ensures { result ≡ fields_of (header_at at block.now) }
{
    let view = UrbView::new(block, at);
    UrbFields {
        status: view.status(),
        buffer_length: view.buffer_length(),
        actual_length: view.actual_length(),
        error_count: view.error_count(),
        usercontext: view.usercontext(),
    }
}

// The fields of the header that stands at `at`, where the block has room for one there.
#[tactic(auto, unfolding(crate::specs::Viewed::fields_read))]
pub fn read(block: &[u8], at: usize) -> Result<UrbFields, Error>
    ensures { result ≡ fields_read at block.now }
{
    if has_room(block, at, Urb::SIZE) {
        Ok(fields(block, at))
    } else {
        Err(Error::BlockLength)
    }
}
