// What `check` says of four texts.
use crate::runs::{CHECK, NAMES, NETWORK, TWO_SIGNALS, expect_check};
use canpack_top::canpack;
use pack_base::{NullSink, OpenGate, SteadyFolder};
use std::test::Fail;

/// The text of one file in the place of the accepted one, by its number from 0, with the status and what is said.
const TEXTS: [(usize, &[u8], u8, &[u8]); 13] = [
    (0, NETWORK, 0, b"placed\n"),
    // The second signal begins in the last bit of the first.
    (
        2,
        b"id,sender,size,ticks,header,pdu,at,signal,start,bits\n256,ECU1,2,7400,none,,0,S1,0,8\n256,ECU1,2,7400,none,,0,S2,7,8\n",
        5,
        b"rejected matrix\n",
    ),
    // Each signal in a frame of its own.
    (
        2,
        b"id,sender,size,ticks,header,pdu,at,signal,start,bits\n257,ECU1,1,7000,none,,0,S1,0,8\n256,ECU1,1,7000,none,,0,S2,0,8\n",
        0,
        b"placed\n",
    ),
    // A size one step too large, ticks of another size, a signal without a row, and one of another sender.
    (
        2,
        b"id,sender,size,ticks,header,pdu,at,signal,start,bits\n256,ECU1,3,7800,none,,0,S1,0,8\n256,ECU1,3,7800,none,,0,S2,8,8\n",
        5,
        b"rejected matrix\n",
    ),
    (
        2,
        b"id,sender,size,ticks,header,pdu,at,signal,start,bits\n256,ECU1,2,7800,none,,0,S1,0,8\n256,ECU1,2,7800,none,,0,S2,8,8\n",
        5,
        b"rejected matrix\n",
    ),
    (
        2,
        b"id,sender,size,ticks,header,pdu,at,signal,start,bits\n256,ECU1,1,7000,none,,0,S1,0,8\n",
        5,
        b"rejected matrix\n",
    ),
    (
        2,
        b"id,sender,size,ticks,header,pdu,at,signal,start,bits\n256,ECU2,2,7400,none,,0,S1,0,8\n256,ECU2,2,7400,none,,0,S2,8,8\n",
        5,
        b"rejected matrix\n",
    ),
    // A header that only one row of the frame has, an I-PDU that only the matrix has, and one that only SIGNALS has.
    (
        2,
        b"id,sender,size,ticks,header,pdu,at,signal,start,bits\n256,ECU1,2,7400,short,,0,S1,0,8\n256,ECU1,2,7400,none,,0,S2,8,8\n",
        5,
        b"rejected matrix\n",
    ),
    (
        2,
        b"id,sender,size,ticks,header,pdu,at,signal,start,bits\n256,ECU1,2,7400,none,1,0,S1,0,8\n256,ECU1,2,7400,none,,0,S2,8,8\n",
        5,
        b"rejected matrix\n",
    ),
    (
        1,
        b"signal,sender,pdu,bits,period_us,deadline_us,jitter_us\nS1,ECU1,1,8,10000,10000,0\nS2,ECU1,,8,10000,10000,0\n",
        5,
        b"rejected matrix\n",
    ),
    // A matrix without rows.
    (
        2,
        b"id,sender,size,ticks,header,pdu,at,signal,start,bits\n",
        5,
        b"rejected matrix\n",
    ),
    // The deadline and the jitter as they are taken where they are empty.
    (
        1,
        b"signal,sender,pdu,bits,period_us,deadline_us,jitter_us\nS1,ECU1,,8,10000,,\nS2,ECU1,,8,10000,,0\n",
        0,
        b"placed\n",
    ),
    // A byte order mark, and lines that end with CR and LF.
    (
        1,
        b"\xef\xbb\xbfsignal,sender,pdu,bits,period_us,deadline_us,jitter_us\r\nS1,ECU1,,8,10000,10000,0\r\nS2,ECU1,,8,10000,10000,0\r\n",
        0,
        b"placed\n",
    ),
];

#[test]
fn one_text_changed(rt: HostRuntime) -> Result<(), Fail> {
    for (number, (file, text, status, said)) in TEXTS.iter().enumerate() {
        let mut texts = TWO_SIGNALS;
        texts[*file] = text;
        expect_check(&rt, number, &texts, *status, said)?;
    }
    Ok(())
}

#[test]
fn a_folder_that_never_fails(rt: HostRuntime) -> Result<(), Fail> {
    let mut folder = SteadyFolder::new(rt.alloc());
    for (name, text) in NAMES.iter().zip(&TWO_SIGNALS) {
        folder.put(name, text)?;
    }
    let mut words = Vec::new(rt.alloc());
    for word in &CHECK {
        words.push(String::from_str(rt.alloc(), word)?)?;
    }
    let alloc = rt.alloc();
    assert_eq!(rt;
        canpack(&rt, alloc, &words, &mut folder, &mut NullSink, &OpenGate),
        0
    );
    Ok(())
}
