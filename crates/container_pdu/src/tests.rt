ghost use Rattle.std.specs.Prelude.{◌≡◌, ◌∷◌, [], IfOk};

use super::*;
use pack_model::Payload;
use std::alloc::{AllocError, Global};
use std::test::*;

// A part of one byte.
fn part_of(alloc: Global, id: u32, byte: u8) -> Result<Part, AllocError>
    ensures { IfOk result (λ part. part ≡ record { id = id; bytes = byte ∷ [] }) }
{
    let bytes = Payload::of(Vec::from_slice(alloc, &[byte])?);
    Ok(Part { id, bytes })
}

#[test]
fn two_short_headers(rt: HostRuntime) -> Result<(), Fail> {
    let parts = [part_of(rt.alloc(), 1, 0xAA)?, part_of(rt.alloc(), 2, 0xBB)?];
    let bytes = write_container(rt.alloc(), Header::Short, &parts, 12)
        .ok()
        .ok_or("memory is left")?;
    let expected = [0, 0, 1, 1, 0xAA, 0, 0, 2, 1, 0xBB, 0, 0];
    assert_eq!(rt; bytes.as_slice(), expected.as_slice());
    let read = read_container(rt.alloc(), bytes.as_slice(), Header::Short)?;
    assert_eq!(rt; read.len(), 2);
    for (part, (id, byte)) in read.iter().zip([(1, 0xAA), (2, 0xBB)]) {
        assert_eq!(rt; part.id, id);
        assert_eq!(rt; part.bytes.as_slice(), [byte].as_slice());
    }
    Ok(())
}

#[test]
fn one_long_header(rt: HostRuntime) -> Result<(), Fail> {
    let parts = [part_of(rt.alloc(), 16_777_216, 0xAA)?];
    let bytes = write_container(rt.alloc(), Header::Long, &parts, 12)
        .ok()
        .ok_or("memory is left")?;
    let expected = [1, 0, 0, 0, 0, 0, 0, 1, 0xAA, 0, 0, 0];
    assert_eq!(rt; bytes.as_slice(), expected.as_slice());
    Ok(())
}

#[test]
fn faults(rt: HostRuntime) {
    for (bytes, fault) in [
        ([0, 0, 1, 5, 0xAA].as_slice(), ContainerFault::CutBody(0)),
        ([0, 0, 0, 1, 0xAA].as_slice(), ContainerFault::ZeroId(0)),
        ([0, 0, 1].as_slice(), ContainerFault::CutHeader(0)),
        (
            [0, 0, 1, 0, 0, 0, 1, 0].as_slice(),
            ContainerFault::TwiceId(1),
        ),
    ] {
        assert_eq!(rt;
            read_container(rt.alloc(), bytes, Header::Short).err(),
            Some(fault)
        );
    }
    let nothing = read_container(rt.alloc(), &[], Header::Short);
    assert!(rt; nothing.is_ok_and(|parts| parts.is_empty()));
}

#[test]
fn kinds_and_bytes(rt: HostRuntime) {
    assert_eq!(rt; header_kind(&[1]), Header::NoHeader);
    assert_eq!(rt; header_kind(&[1, 16_777_215]), Header::Short);
    assert_eq!(rt; header_kind(&[1, 16_777_216]), Header::Long);
    assert_eq!(rt; container_bytes(&[16_777_216], &[5]), 5);
    assert_eq!(rt; container_bytes(&[1, 2], &[1, 1]), 10);
    assert_eq!(rt; container_bytes(&[1, 16_777_216], &[1, 1]), 18);
}
