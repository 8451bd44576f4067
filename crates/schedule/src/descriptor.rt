// The endpoint arithmetic of descriptor.rs.
ghost use Rattle.std.specs.Prelude.{◌≡◌};
ghost use Rattle.schedule.specs.Endpoint.{transfer_type, direction_of, bytes_per_interval};

#[derive(Clone, Copy)]
pub enum TransferType {
    Control,
    Isochronous,
    Bulk,
    Interrupt,
}

#[derive(Clone, Copy)]
pub enum Direction {
    Out,
    In,
}

// A standard endpoint descriptor's fields; max_packet_size is wMaxPacketSize as it stands.
#[derive(Clone, Copy)]
pub struct Endpoint {
    pub address: u8,
    pub attributes: u8,
    pub max_packet_size: u16,
    pub interval: u8,
}

impl Endpoint {
    // Bit 7 of the address.
    pub fn direction(self) -> Direction
        ensures { result ≡ direction_of self }
    {
        match self.address >> 7 {
            0 => Direction::Out,
            _ => Direction::In,
        }
    }

    // Bits 1..0 of the attributes.
    pub fn transfer_type(self) -> TransferType
        ensures { result ≡ transfer_type self }
    {
        match self.attributes & 0b11 {
            0 => TransferType::Control,
            1 => TransferType::Isochronous,
            2 => TransferType::Bulk,
            _ => TransferType::Interrupt,
        }
    }

    // Bits 10..0 of wMaxPacketSize are a packet's bytes, bits 12..11 the additional transactions
    // in a microframe.
    pub fn bytes_per_interval(self) -> usize
        ensures { result ≡ bytes_per_interval self }
    {
        let size = usize::from(self.max_packet_size & 0x7ff);
        let additional = usize::from(self.max_packet_size >> 11 & 0b11);
        size * (1 + additional)
    }
}
