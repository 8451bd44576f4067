// The names and the texts of the refusals.
ghost use Rattle.std.specs.Prelude.{◌≡◌, [], get_or, map};

// Each refusal's name and text, at its number; 0 and 32 have empty ones, since they are no refusals.
pub const ROWS: [(&str, &str); 34] = [
    ("", ""),
    ("TooFewSlots", "fewer than 2 slots"),
    ("ZeroSize", "no packets, or no bytes a packet"),
    ("TooManyPackets", "more than 128 packets a URB"),
    ("LayoutOverflow", "a product, sum or raising above 2^64 - 1"),
    (
        "TooLarge",
        "more than 256 slots, or more than 49,152 bytes a packet",
    ),
    ("BlockLength", "the block has the wrong length"),
    (
        "BaseAddress",
        "base no multiple of 64, or the block goes past the address space",
    ),
    ("Unsound", "the record breaks one of its rules"),
    ("WrongHand", "the hand is wrong for this call"),
    ("CommitTooLong", "more bytes than the capacity"),
    ("PacketCount", "not as many lengths as packets"),
    ("PacketTooLong", "a length above the bytes of a packet"),
    (
        "Disconnected",
        "the device is gone; from finish: buffers are still out",
    ),
    (
        "UsbfsMemory",
        "usbfs has no memory for the ring; carries its payload bytes",
    ),
    ("PermissionDenied", "no permission"),
    ("Unsupported", "not supported"),
    ("Io", "another errno, which it carries"),
    ("StrayNotice", "a notice for a slot that is not out"),
    (
        "Underrun",
        "an underrun under the policy Error; carries the count",
    ),
    (
        "ListTooShort",
        "the list is shorter than the slots to discard",
    ),
    (
        "UnsupportedSpeed",
        "a speed other than Full, High, Super, SuperPlus",
    ),
    ("InvalidInterval", "bInterval outside 1 to 16"),
    ("ZeroPacketBytes", "no bytes a packet"),
    ("ZeroPackets", "no packets"),
    ("ProductOverflow", "a product above 2^64 - 1"),
    ("NotIsochronous", "the endpoint is not isochronous"),
    ("IntervalUnknown", "interval unknown"),
    ("PacketSizeUnknown", "packet size unknown"),
    ("PacketBytesTooLarge", "packet bytes above the packet size"),
    ("InvalidEndpoint", "the endpoint is not an OUT endpoint"),
    (
        "NotAnImage",
        "the image is too short or not that of a sound record; at opening: an unknown policy or tag, \
         or a buffer too short",
    ),
    ("", ""),
    ("FrameSize", "no bytes a frame, or more than a packet has"),
];

// The row at that number; behind the last are empty ones.
pub fn row<'a>(rows: &[(&'a str, &'a str)], number: u32) -> (&'a str, &'a str)
    ensures name { result.0.now ≡ get_or (map (λ r. r.0.now) rows.now) number [] }
    ensures text { result.1.now ≡ get_or (map (λ r. r.1.now) rows.now) number [] }
{
    rows.get(number as usize).copied().unwrap_or(("", ""))
}
