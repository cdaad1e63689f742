// What an Ethernet record of a capture holds: its kind, and the datagram that it carries over IPv4 and UDP.
#![tactic(auto)]

ghost use Rattle.std.specs.Prelude.{◌≡◌, ◌<◌, get_or, drop};
ghost use Rattle.octets.specs.Bytes.{slice};
ghost use Rattle.ethernet.specs.Layers.{word_at, header_size, is_fragment, carried_of, datagram_of};
ghost use Rattle.ethernet.specs.Kinds.{udp_kind, ipv4_kind, kind_of};

// The header of Ethernet: two addresses of 6 bytes, and the EtherType.
const ETHERNET_HEADER: usize = 14;

const ETHERTYPE_IPV4: usize = 2048;

// The shortest header of IPv4, without options.
const IPV4_HEADER: usize = 20;

const PROTOCOL_UDP: u8 = 17;

const UDP_HEADER: usize = 8;

// The ports that the two ends are reached at.
#[derive(Clone, Copy)]
pub struct Ports {
    pub radio: usize,
    pub ips: usize,
}

// What a record is: the first of these that holds.
#[derive(Clone, Copy)]
pub enum Kind {
    // The capture kept fewer bytes than there were.
    Shortened,
    // No room for a header of Ethernet.
    Short,
    // Another EtherType; VLAN tags too.
    OtherType,
    // No room for a header of IPv4, or another version.
    NotIpv4,
    // A part of a datagram, the first too.
    Fragment,
    OtherProtocol,
    // Lengths of IPv4 that don't fit the record.
    Ipv4Length,
    // A length of UDP that doesn't fit what IPv4 carries.
    UdpLength,
    OtherPort,
    // A datagram to the radio's port: the IPS end's.
    Ips,
    // A datagram to the IPS end's port: the radio's.
    Radio,
}

// A byte, or 0 where there is none.
fn byte(bytes: &[u8], at: usize) -> u8
    ensures { result ≡ get_or bytes.now at 0 }
{
    bytes.get(at).copied().unwrap_or(0)
}

// A number of two bytes, the higher first.
fn word(bytes: &[u8], at: usize) -> usize
    requires { at < 256 }
    ensures { result ≡ word_at at bytes.now }
{
    usize::from(byte(bytes, at)) * 256 + usize::from(byte(bytes, at + 1))
}

// The bytes from an index up to another, as far as there are any.
fn part(bytes: &[u8], from: usize, to: usize) -> &[u8]
    ensures { result.now ≡ slice from to bytes.now }
{
    match bytes.get(from..to.min(bytes.len())) {
        Some(part) => part,
        None => &[],
    }
}

// What stands behind the header of Ethernet.
fn packet(frame: &[u8]) -> &[u8]
    ensures { result.now ≡ drop 14 frame.now }
{
    part(frame, ETHERNET_HEADER, frame.len())
}

// How many bytes the header of IPv4 says that it has, options included.
fn header_size(packet: &[u8]) -> usize
    ensures { result ≡ header_size packet.now }
{
    usize::from(byte(packet, 0)) % 16 * 4
}

// What IPv4 carries: behind its header, up to its total length.
#[tactic(auto, unfolding(crate::specs::Layers::carried_of))]
fn carried(packet: &[u8]) -> &[u8]
    ensures { result.now ≡ carried_of packet.now }
{
    part(packet, header_size(packet), word(packet, 2))
}

// Whether more fragments follow, or some came before.
#[tactic(auto, unfolding(crate::specs::Layers::is_fragment))]
fn is_fragment(packet: &[u8]) -> bool
    ensures { result ≡ is_fragment packet.now }
{
    let field = word(packet, 6);
    field / 8192 % 2 == 1 || field % 8192 != 0
}

// The kind by what IPv4 carries.
#[tactic(auto, unfolding(crate::specs::Kinds::udp_kind))]
fn udp_kind(carried: &[u8], ports: Ports) -> Kind
    ensures { result ≡ udp_kind ports carried.now }
{
    let size = word(carried, 4);
    if size < UDP_HEADER || carried.len() < size {
        return Kind::UdpLength;
    }
    let port = word(carried, 2);
    if port == ports.radio {
        Kind::Ips
    } else if port == ports.ips {
        Kind::Radio
    } else {
        Kind::OtherPort
    }
}

// The kind by what stands behind the header of Ethernet.
#[tactic(auto, unfolding(crate::specs::Kinds::ipv4_kind))]
fn ipv4_kind(packet: &[u8], ports: Ports) -> Kind
    ensures { result ≡ ipv4_kind ports packet.now }
{
    if packet.len() < IPV4_HEADER || byte(packet, 0) / 16 != 4 {
        return Kind::NotIpv4;
    }
    if is_fragment(packet) {
        return Kind::Fragment;
    }
    if byte(packet, 9) != PROTOCOL_UDP {
        return Kind::OtherProtocol;
    }
    let header = header_size(packet);
    let total = word(packet, 2);
    if header < IPV4_HEADER || total < header || packet.len() < total {
        return Kind::Ipv4Length;
    }
    udp_kind(carried(packet), ports)
}

// The kind of a record, by how many bytes there were, the bytes that were kept, and the ports.
#[tactic(auto, unfolding(crate::specs::Kinds::kind_of))]
pub fn kind_of(frame: &[u8], original: usize, ports: Ports) -> Kind
    ensures { result ≡ kind_of ports original frame.now }
{
    if frame.len() < original {
        return Kind::Shortened;
    }
    if frame.len() < ETHERNET_HEADER {
        return Kind::Short;
    }
    if word(frame, 12) != ETHERTYPE_IPV4 {
        return Kind::OtherType;
    }
    ipv4_kind(packet(frame), ports)
}

// The datagram of a record of the two last kinds, as that stretch of the record: behind the header of UDP, up to its
// length. What stands behind it, padding too, is left out.
#[tactic(auto, unfolding(crate::specs::Layers::datagram_of))]
pub fn datagram(frame: &[u8]) -> &[u8]
    ensures { result.now ≡ datagram_of frame.now }
{
    let carried = carried(packet(frame));
    part(carried, UDP_HEADER, word(carried, 4))
}
