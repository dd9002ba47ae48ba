//! The LAN parameters that are kept.
ghost use Rattle.std.specs.Prelude.{◌≡◌, ◌+◌, ◌≤◌, true};
ghost use Rattle.lan_dest.specs.Kept.{kept};
ghost use Rattle.lan_dest.specs.Parameters.{at, is_channel, initial, with_content, powered};
ghost use Rattle.lan_dest.specs.Arrays.{index_of};

/// The community string that each channel has at first, filled up with 00h.
const PUBLIC: [u8; 18] = *b"public\0\0\0\0\0\0\0\0\0\0\0\0";
/// How many destinations a channel has.
pub(crate) const DESTINATIONS: u8 = 5;

/// LAN configuration parameters 16, 18 and 19 of channels 1 and 2, with destinations 0 to 4 on each (IPMI 2.0,
/// section 23.2).
#[derive(Debug, Drop)]
pub struct Lan {
    communities: [[u8; 18]; 2],
    kinds: [[u8; 3]; 10],
    addresses: [[u8; 12]; 10],
}

impl Lan {
    /// The initial parameters: the community `public`, and destinations of zeros.
    pub fn new() -> Lan
        ensures { kept result ≡ initial }
    {
        Lan {
            communities: [PUBLIC; 2],
            kinds: [[0; 3]; 10],
            addresses: [[0; 12]; 10],
        }
    }

    /// The power came back: destination 0 of both channels, which is volatile, becomes zeros.
    pub fn power(&mut self)
        ensures { kept self.new ≡ powered (kept self.old) }
    {
        self.put_address(2, 0, [0; 12]);
        self.put_kind(2, 0, [0; 3]);
        self.put_address(1, 0, [0; 12]);
        self.put_kind(1, 0, [0; 3]);
    }

    /// The community string of a channel, filled up with 00h.
    pub(crate) fn community(&self, channel: u8) -> [u8; 18]
        requires { is_channel channel ≡ true }
        ensures { result ≡ kept self.now (at channel 16 0) }
    {
        self.communities[usize::from(channel) - 1]
    }

    /// The type of a destination, its wait and its retries.
    pub(crate) fn kind(&self, channel: u8, number: u8) -> [u8; 3]
        requires channel { is_channel channel ≡ true }
        requires number { number ≤ 4 }
        ensures { result ≡ kept self.now (at channel 18 number) }
    {
        self.kinds[index_of(channel, number)]
    }

    /// The address format of a destination, its gateway, its IPv4 address and its MAC address.
    pub(crate) fn address(&self, channel: u8, number: u8) -> [u8; 12]
        requires channel { is_channel channel ≡ true }
        requires number { number ≤ 4 }
        ensures { result ≡ kept self.now (at channel 19 number) }
    {
        self.addresses[index_of(channel, number)]
    }

    pub(crate) fn put_community(&mut self, channel: u8, octets: [u8; 18])
        requires { is_channel channel ≡ true }
        ensures { kept self.new ≡ with_content (at channel 16 0) octets (kept self.old) }
    {
        self.communities[usize::from(channel) - 1] = octets;
    }

    pub(crate) fn put_kind(&mut self, channel: u8, number: u8, octets: [u8; 3])
        requires channel { is_channel channel ≡ true }
        requires number { number ≤ 4 }
        ensures { kept self.new ≡ with_content (at channel 18 number) octets (kept self.old) }
    {
        self.kinds[index_of(channel, number)] = octets;
    }

    pub(crate) fn put_address(&mut self, channel: u8, number: u8, octets: [u8; 12])
        requires channel { is_channel channel ≡ true }
        requires number { number ≤ 4 }
        ensures { kept self.new ≡ with_content (at channel 19 number) octets (kept self.old) }
    {
        self.addresses[index_of(channel, number)] = octets;
    }
}

/// Whether LAN parameters are kept of this channel.
pub(crate) fn is_channel(channel: u8) -> bool
    ensures { result ≡ is_channel channel }
{
    channel == 1 || channel == 2
}

/// Where the arrays hold this destination.
fn index_of(channel: u8, number: u8) -> usize
    requires channel { is_channel channel ≡ true }
    requires number { number ≤ 4 }
    ensures { result ≡ index_of channel number }
{
    usize::from(DESTINATIONS) * (usize::from(channel) - 1) + usize::from(number)
}
