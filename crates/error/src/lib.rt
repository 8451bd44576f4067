// The refusals of the port, one case for each number of the paper, with the values that it carries.
// Names are those of the Rust's error.rs where it has the case.
#![tactic(auto)]

ghost use Rattle.std.specs.Prelude.{◌≡◌};
ghost use Rattle.error.specs.Number.{number_of, value_of};
ghost use Rattle.error.specs.Errno.{from_errno};

#[derive(Clone, Copy)]
pub enum Error {
    // Layout and opening: 1 to 7.
    TooFewSlots,
    ZeroSize,
    TooManyPackets,
    LayoutOverflow,
    TooLarge,
    BlockLength,
    BaseAddress,
    // Every call: 8 and 9.
    Unsound,
    WrongHand,
    // The commits: 10 to 12.
    CommitTooLong,
    PacketCount,
    PacketTooLong,
    // What the kernel answered: 13 to 17. UsbfsMemory carries the ring's payload bytes, Io the errno.
    Disconnected,
    UsbfsMemory(u64),
    PermissionDenied,
    Unsupported,
    Io(u32),
    // A notice for a slot that is Free: 18.
    StrayNotice,
    // The underrun policy Error: 19, with the count of underruns.
    Underrun(u64),
    // stop's list: 20.
    ListTooShort,
    // Schedule and descriptor: 21 to 26.
    UnsupportedSpeed,
    InvalidInterval,
    ZeroPacketBytes,
    ZeroPackets,
    ProductOverflow,
    NotIsochronous,
    // The builder: 27 to 30.
    IntervalUnknown,
    PacketSizeUnknown,
    PacketBytesTooLarge,
    InvalidEndpoint,
    // Calls from C: 31.
    NotAnImage,
    // The frame size: 33.
    FrameSize,
    // Programme and message: 34.
    PositionBeyond,
}

// Which call an errno came from: a submission, with the ring's payload bytes, or another.
#[derive(Clone, Copy)]
pub enum ErrnoContext {
    Submit { bytes: u64 },
    Other,
}

impl Error {
    // The refusal that a kernel's errno means.
    #[tactic(auto, unfolding(crate::specs::Errno::from_errno, crate::specs::Errno::out_of_memory))]
    pub fn from_errno(errno: u32, context: ErrnoContext) -> Error
        ensures { result ≡ from_errno errno context }
    {
        match errno {
            19 | 108 => Error::Disconnected,
            12 => match context {
                ErrnoContext::Submit { bytes } => Error::UsbfsMemory(bytes),
                ErrnoContext::Other => Error::Io(errno),
            },
            13 | 1 => Error::PermissionDenied,
            25 => Error::Unsupported,
            _ => Error::Io(errno),
        }
    }

    // The refusal's number.
    pub fn number(self) -> u32
        ensures { result ≡ number_of self }
    {
        match self {
            Error::TooFewSlots => 1,
            Error::ZeroSize => 2,
            Error::TooManyPackets => 3,
            Error::LayoutOverflow => 4,
            Error::TooLarge => 5,
            Error::BlockLength => 6,
            Error::BaseAddress => 7,
            Error::Unsound => 8,
            Error::WrongHand => 9,
            Error::CommitTooLong => 10,
            Error::PacketCount => 11,
            Error::PacketTooLong => 12,
            Error::Disconnected => 13,
            Error::UsbfsMemory(_) => 14,
            Error::PermissionDenied => 15,
            Error::Unsupported => 16,
            Error::Io(_) => 17,
            Error::StrayNotice => 18,
            Error::Underrun(_) => 19,
            Error::ListTooShort => 20,
            Error::UnsupportedSpeed => 21,
            Error::InvalidInterval => 22,
            Error::ZeroPacketBytes => 23,
            Error::ZeroPackets => 24,
            Error::ProductOverflow => 25,
            Error::NotIsochronous => 26,
            Error::IntervalUnknown => 27,
            Error::PacketSizeUnknown => 28,
            Error::PacketBytesTooLarge => 29,
            Error::InvalidEndpoint => 30,
            Error::NotAnImage => 31,
            Error::FrameSize => 33,
            Error::PositionBeyond => 34,
        }
    }

    // The value that comes with the refusal's number: 14 the ring's payload bytes, 17 the errno, 19 the count of
    // underruns; 0 with the others.
    pub fn value(self) -> u64
        ensures { result ≡ value_of self }
    {
        match self {
            Error::UsbfsMemory(bytes) => bytes,
            Error::Io(errno) => errno as u64,
            Error::Underrun(count) => count,
            _ => 0,
        }
    }
}
