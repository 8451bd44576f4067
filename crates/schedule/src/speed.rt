// Bus speed as the kernel reports it, and the service interval that it sets.
ghost use Rattle.std.specs.Prelude.{◌≡◌};
ghost use Rattle.schedule.specs.Speed.{from_raw, from_device_probe, service_interval_us, max_intervals};

// enum usb_device_speed, as USBDEVFS_GET_SPEED reports it.
#[derive(Clone, Copy)]
pub enum Speed {
    Unknown,
    Low,
    Full,
    High,
    Wireless,
    Super,
    SuperPlus,
}

impl Speed {
    // The kernel's number for a speed.
    #[tactic(auto, unfolding(crate::specs::Speed::from_raw))]
    pub fn from_raw(raw: i32) -> Speed
        ensures { result ≡ from_raw raw }
    {
        match raw {
            1 => Speed::Low,
            2 => Speed::Full,
            3 => Speed::High,
            4 => Speed::Wireless,
            5 => Speed::Super,
            6 => Speed::SuperPlus,
            _ => Speed::Unknown,
        }
    }

    // For a kernel without USBDEVFS_GET_SPEED: the speed by the device's bMaxPacketSize0 and by
    // whether it answered GET_DESCRIPTOR(DEVICE_QUALIFIER).
    pub fn from_device_probe(max_packet0: u8, has_qualifier: bool) -> Speed
        ensures { result ≡ from_device_probe max_packet0 has_qualifier }
    {
        if max_packet0 == 9 {
            Speed::Super
        } else if has_qualifier {
            Speed::High
        } else {
            Speed::Full
        }
    }

    // A 1 ms frame at Full, a 125 µs microframe above it.
    pub fn service_interval_us(self) -> Option<u32>
        ensures { result ≡ service_interval_us self }
    {
        match self {
            Speed::Unknown | Speed::Low | Speed::Wireless => None,
            Speed::Full => Some(1000),
            Speed::High | Speed::Super | Speed::SuperPlus => Some(125),
        }
    }

    // The most service intervals between two packets, as the kernel caps them.
    pub fn max_intervals(self) -> u32
        ensures { result ≡ max_intervals self }
    {
        match self {
            Speed::Full => 1024,
            Speed::Unknown | Speed::Low | Speed::High | Speed::Wireless => 8192,
            Speed::Super | Speed::SuperPlus => 32768,
        }
    }
}
