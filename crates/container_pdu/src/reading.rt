//! Reading a container.
ghost use Rattle.std.specs.Prelude.{◌≡◌, ◌≢◌, ◌≤◌, ◌⊎◌, ℕ, List, length, IfOk, IfErr, Ok, Err};
ghost use Rattle.container_pdu.specs.Bytes.{IsContainer, header_bytes};
ghost use Rattle.container_pdu.specs.Reading.{has_id, id_in, is_zeros, length_in, part_at, parts_of, told};
ghost use Rattle.pack_model.specs.Gives.{Gives};
ghost use Rattle.container_pdu.specs.Refusals.{Refuses};
ghost use Rattle.container_pdu.specs.declared.fault.ContainerFault.{ContainerFault};
ghost use Rattle.container_pdu.specs.declared.fault.ContainerFault.TheVariants as fault;
ghost use Rattle.container_pdu.specs.declared.header.Header.TheVariants.{NoHeader};
ghost use Rattle.container_pdu.specs.declared.part.Part.{Part};

use crate::fault::ContainerFault;
use crate::header::Header;
use crate::part::Part;
use pack_model::Payload;
use std::alloc::Global;

/// The id in the header at the front.
fn id_at(header: Header, bytes: &[u8]) -> u32
    requires { header_bytes header ≤ length bytes.now }
    ensures { result ≡ id_in header bytes.now }
{
    match header {
        Header::NoHeader => 0,
        Header::Short => u32::from_be_bytes([0, bytes[0], bytes[1], bytes[2]]),
        Header::Long => u32::from_be_bytes([bytes[0], bytes[1], bytes[2], bytes[3]]),
    }
}

/// The length in the header at the front, in bytes.
fn length_at(header: Header, bytes: &[u8]) -> usize
    requires { header_bytes header ≤ length bytes.now }
    ensures { result ≡ length_in header bytes.now }
{
    match header {
        Header::NoHeader => 0,
        Header::Short => usize::from(bytes[3]),
        Header::Long => u32::from_be_bytes([bytes[4], bytes[5], bytes[6], bytes[7]]) as usize,
    }
}

/// Whether a part has this id.
fn occurs(id: u32, parts: &[Part]) -> bool
    ensures { result ≡ has_id id parts.now }
{
    parts.iter().any(|part| part.id == id)
}

/// Whether each byte is 0.
fn are_zeros(bytes: &[u8]) -> bool
    ensures { result ≡ is_zeros bytes.now }
{
    bytes.iter().all(|byte| *byte == 0)
}

/// The part at the front and the bytes after it.
fn read_part<'a>(
    alloc: Global,
    header: Header,
    at: usize,
    earlier: &[Part],
    bytes: &'a [u8],
) -> Result<(Part, &'a [u8]), ContainerFault>
    ensures exact { Gives (λ x. (x.0, x.1.now)) told result (part_at header at earlier.now bytes.now) }
    ensures shorter { IfOk result (λ x. length x.1.now ≤ length bytes.now) }
{
    let header_length = header.bytes() as usize;
    if bytes.len() < header_length {
        return Err(ContainerFault::CutHeader(at));
    }
    let id = id_at(header, bytes);
    if id == 0 {
        return Err(ContainerFault::ZeroId(at));
    }
    let length = length_at(header, bytes);
    let (_, after) = bytes.split_at(header_length);
    if after.len() < length {
        return Err(ContainerFault::CutBody(at));
    }
    if occurs(id, earlier) {
        return Err(ContainerFault::TwiceId(id));
    }
    let (body, rest) = after.split_at(length);
    let bytes = Payload::of(Vec::from_slice(alloc, body)?);
    Ok((Part { id, bytes }, rest))
}

/// The parts of a container with these headers, from the front until only zeros are left.
pub fn read_container(
    alloc: Global,
    payload: &[u8],
    header: Header,
) -> Result<Vec<Part>, ContainerFault>
    requires { header ≢ NoHeader }
    // The bytes are those of the parts with their headers, and zeros; or what is wrong with them behind the
    // parts at their front is the fault.
    ensures found { IfOk result (λ v. IsContainer header v.items payload.now) }
    ensures refused { IfErr result (λ e. (e ≡ fault.Memory) ⊎ Refuses header payload.now e) }
    // Each container is read and each wrong one is refused, unless memory runs out.
    ensures reads { (parts : List Part) → IsContainer header parts payload.now
        → Gives (λ v. v.items) told result (Ok parts) }
    ensures refuses { (why : ContainerFault) → Refuses header payload.now why
        → Gives (λ v. v.items) told result (Err why) }
{
    read_parts(alloc, payload, header)
}

fn read_parts(alloc: Global, payload: &[u8], header: Header) -> Result<Vec<Part>, ContainerFault>
    ensures { Gives (λ v. v.items) told result (parts_of header payload.now) }
{
    let mut parts = Vec::new(alloc);
    let mut rest = payload;
    for _ in 0..payload.len() {
        if are_zeros(rest) {
            return Ok(parts);
        }
        let at = payload.len() - rest.len();
        let (part, after) = read_part(alloc, header, at, &parts, rest)?;
        parts.push(part)?;
        rest = after;
    }
    Ok(parts)
}
