// Containers written and read by the calls of their crate.
ghost use Rattle.std.specs.Prelude.{◌≡◌, ◌∷◌, [], IfOk};

use container_pdu::{ContainerFault, Header, Part, read_container, write_container};
use pack_model::Payload;
use std::alloc::{AllocError, Global};
use std::test::*;

// A part of one byte.
fn part_of(alloc: Global, id: u32, byte: u8) -> Result<Part, AllocError>
    ensures { IfOk result (λ part. part ≡ record { id = id; bytes = byte ∷ [] }) }
{
    let bytes = Payload::of(Vec::from_slice(alloc, &[byte])?);
    Ok(Part { id, bytes })
}

#[test]
fn short_headers(rt: HostRuntime) -> Result<(), Fail> {
    let parts = [part_of(rt.alloc(), 1, 0xAA)?, part_of(rt.alloc(), 2, 0xBB)?];
    let bytes = write_container(rt.alloc(), Header::Short, &parts, 12)
        .ok()
        .ok_or("memory is left")?;
    let expected = [0, 0, 1, 1, 0xAA, 0, 0, 2, 1, 0xBB, 0, 0];
    assert_eq!(rt; bytes.as_slice(), expected.as_slice());
    let read = read_container(rt.alloc(), bytes.as_slice(), Header::Short)?;
    assert_eq!(rt; read.len(), 2);
    Ok(())
}

#[test]
fn long_header(rt: HostRuntime) -> Result<(), Fail> {
    let parts = [part_of(rt.alloc(), 16_777_216, 0xAA)?];
    let bytes = write_container(rt.alloc(), Header::Long, &parts, 9)
        .ok()
        .ok_or("memory is left")?;
    let expected = [1, 0, 0, 0, 0, 0, 0, 1, 0xAA];
    assert_eq!(rt; bytes.as_slice(), expected.as_slice());
    Ok(())
}

#[test]
fn refused_payloads(rt: HostRuntime) {
    for (bytes, fault) in [
        ([0, 0, 1, 5, 0xAA].as_slice(), ContainerFault::CutBody(0)),
        ([0, 0, 0, 1, 0xAA].as_slice(), ContainerFault::ZeroId(0)),
        ([0, 0, 1].as_slice(), ContainerFault::CutHeader(0)),
        (
            [0, 0, 1, 0, 0, 0, 1, 0].as_slice(),
            ContainerFault::TwiceId(1),
        ),
    ] {
        assert_eq!(rt;
            read_container(rt.alloc(), bytes, Header::Short).err(),
            Some(fault)
        );
    }
    let nothing = read_container(rt.alloc(), &[], Header::Short);
    assert!(rt; nothing.is_ok_and(|parts| parts.is_empty()));
}
