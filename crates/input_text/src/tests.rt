use super::*;
use pack_model::Network;
use std::test::Fail;

const N0: &[u8] =
    b"{\"version\":1,\"ticks_per_us\":80,\"nominal_ticks\":160,\"data_ticks\":40,\"first_id\":256}\n";

#[test]
fn networks(rt: HostRuntime) -> Result<(), Fail> {
    let network = Network {
        ticks_per_us: 80,
        nominal_ticks: 160,
        data_ticks: 40,
        first_id: 256,
    };
    assert_eq!(rt; read_network(rt.alloc(), N0)?, network);
    assert_eq!(rt; write_network(rt.alloc(), &network)?.as_slice(), N0);
    for (text, fault) in [
        (b"{".as_slice(), NetworkFault::NotJson),
        (b"\xEF\xBB\xBF[]".as_slice(), NetworkFault::BadMember(0)),
        (b"{\"version\":1.0}".as_slice(), NetworkFault::BadMember(1)),
        (b"{\"version\":1}".as_slice(), NetworkFault::BadMember(2)),
    ] {
        assert_eq!(rt; read_network(rt.alloc(), text), Err(fault));
    }
    Ok(())
}

#[test]
fn signals(rt: HostRuntime) -> Result<(), Fail> {
    let text =
        b"\xEF\xBB\xBFsignal,sender,pdu,bits,period_us,deadline_us,jitter_us\r\nS1,ECU1,,8,10000,,\r\n";
    let signals = read_signals(rt.alloc(), text)?;
    let written = write_signals(rt.alloc(), signals.as_slice())
        .ok()
        .ok_or("memory is left")?;
    assert_eq!(rt;
        written.as_slice(),
        b"signal,sender,pdu,bits,period_us,deadline_us,jitter_us\nS1,ECU1,,8,10000,10000,0\n".as_slice()
    );
    Ok(())
}
