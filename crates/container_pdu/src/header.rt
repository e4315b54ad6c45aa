//! Which header the parts of a container have, and how many bytes parts and headers are.
ghost use Rattle.std.specs.Prelude.{◌≡◌, ◌≤◌, ◌<◌, ◌^◌, All, length, nat_lt, sum};
ghost use Rattle.std.specs.List.{list_all};
ghost use Rattle.container_pdu.specs.Bytes.{bytes_of_parts, header_bytes, header_of};

/// The header before each part, as AUTOSAR IpduM has it.
#[derive(Clone, Copy, Debug, PartialEq, Eq)]
pub enum Header {
    /// There is none: one PDU alone, or free items.
    NoHeader,
    /// 4 bytes: an id of 24 bits and a length of 8 bits.
    Short,
    /// 8 bytes: an id of 32 bits and a length of 32 bits.
    Long,
}

impl Header {
    /// How many bytes the header is.
    pub fn bytes(self) -> u32
        ensures { result ≡ header_bytes self }
    {
        match self {
            Header::NoHeader => 0,
            Header::Short => 4,
            Header::Long => 8,
        }
    }
}

/// The header of a frame with the PDUs of these ids: none for fewer than two, short where each id is below
/// 2^24, else long.
pub fn header_kind(ids: &[u32]) -> Header
    ensures { result ≡ header_of ids.now }
{
    if ids.len() < 2 {
        Header::NoHeader
    } else if are_short(ids) {
        Header::Short
    } else {
        Header::Long
    }
}

/// Whether each id has 24 bits at most.
fn are_short(ids: &[u32]) -> bool
    ensures { result ≡ list_all (λ id. nat_lt id (2 ^ 24)) ids.now }
{
    ids.iter().all(|id| *id < 1 << 24)
}

/// The sum of lengths.
fn total_of(lengths: &[u32]) -> u32
    requires { sum lengths.now < 2 ^ 32 }
    ensures { result ≡ sum lengths.now }
{
    lengths.iter().sum()
}

/// How many bytes PDUs of these ids and lengths in bytes are together, with their headers.
pub fn container_bytes(ids: &[u32], lengths: &[u32]) -> u32
    requires same_length { length ids.now ≡ length lengths.now }
    requires few { length ids.now ≤ 128 }
    requires short { All (λ bytes. bytes ≤ 64) lengths.now }
    ensures { result ≡ bytes_of_parts ids.now lengths.now }
{
    ids.len() as u32 * header_kind(ids).bytes() + total_of(lengths)
}
