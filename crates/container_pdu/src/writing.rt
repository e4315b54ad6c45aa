//! Writing a container.
ghost use Rattle.std.specs.Prelude.{◌≡◌, ◌≤◌, ◌<◌, ◌++◌, length, IfOk, OnOk};
ghost use Rattle.container_pdu.specs.Bytes.{Fits, IsContainer, container_text, header_text, length_limit, part_text};

use crate::header::Header;
use crate::part::Part;
use pack_model::Memory;
use std::alloc::Global;

// Adds a header.
fn put_header(out: &mut Vec<u8>, header: Header, id: u32, count: usize) -> Result<(), Memory>
    requires { count < length_limit header }
    ensures { OnOk result (out.new.items ≡ out.old.items ++ header_text header id count) }
{
    match header {
        Header::NoHeader => {}
        Header::Short => {
            out.extend_from_slice(&id.to_be_bytes()[1..])?;
            out.push(count as u8)?;
        }
        Header::Long => {
            out.extend_from_slice(&id.to_be_bytes())?;
            out.extend_from_slice(&(count as u32).to_be_bytes())?;
        }
    }
    Ok(())
}

// Adds a part under its header.
fn put_part(out: &mut Vec<u8>, header: Header, part: &Part) -> Result<(), Memory>
    requires { length part.now.bytes < length_limit header }
    ensures { OnOk result (out.new.items ≡ out.old.items ++ part_text header part.now) }
{
    let bytes = part.bytes.as_slice();
    put_header(out, header, part.id, bytes.len())?;
    out.extend_from_slice(bytes)?;
    Ok(())
}

/// The bytes of a container: the parts one after another, each under its header, and zeros up to `size`
/// bytes, at most 64.
pub fn write_container(
    alloc: Global,
    header: Header,
    parts: &[Part],
    size: u32,
) -> Result<Vec<u8>, Memory>
    requires fits { Fits header parts.now size }
    requires small { size ≤ 64 }
    ensures exact { IfOk result (λ v. v.items ≡ container_text header parts.now size) }
    // `read_container` of the bytes gives the same parts.
    ensures reads_back { IfOk result (λ v. IsContainer header parts.now v.items) }
{
    container_of(alloc, header, parts, size)
}

fn container_of(alloc: Global, header: Header, parts: &[Part], size: u32) -> Result<Vec<u8>, Memory>
    requires { Fits header parts.now size }
    ensures { IfOk result (λ v. v.items ≡ container_text header parts.now size) }
{
    let mut out = Vec::new(alloc);
    for part in parts {
        put_part(&mut out, header, part)?;
    }
    out.resize(size as usize, 0)?;
    Ok(out)
}
