// Texts that are refused, each with its line.
use crate::runs::{TWO_SIGNALS, expect_check};
use std::test::Fail;

/// The text of one file in the place of the accepted one, by its number from 0, with what is said.
const REFUSED: [(usize, &[u8], &[u8]); 21] = [
    (0, b"", b"refused NETWORK not json\n"),
    (0, b"{}", b"refused NETWORK member 1\n"),
    (
        0,
        b"{\"version\":1,\"ticks_per_us\":80,\"nominal_ticks\":160,\"first_id\":256}",
        b"refused NETWORK member 4\n",
    ),
    // One byte order mark is passed over, and not a second.
    (
        0,
        b"\xef\xbb\xbf\xef\xbb\xbf{\"version\":1,\"ticks_per_us\":80,\"nominal_ticks\":160,\"data_ticks\":40,\"first_id\":256}",
        b"refused NETWORK not json\n",
    ),
    (
        1,
        b"\xef\xbb\xbf\xef\xbb\xbfsignal,sender,pdu,bits,period_us,deadline_us,jitter_us\nS1,ECU1,,8,10000,10000,0\n",
        b"refused SIGNALS header\n",
    ),
    // No record, none but the header, one name twice, and names and columns by their rules.
    (1, b"", b"refused SIGNALS header\n"),
    (
        1,
        b"signal,sender,pdu,bits,period_us,deadline_us,jitter_us\n",
        b"refused SIGNALS no signals\n",
    ),
    (
        1,
        b"signal,sender,pdu,bits,period_us,deadline_us,jitter_us\nS1,ECU1,,8,10000,10000,0\nS1,ECU1,,8,10000,10000,0\n",
        b"refused SIGNALS row 3 named twice\n",
    ),
    (
        1,
        b"signal,sender,pdu,bits,period_us,deadline_us,jitter_us\nS1,ECU1,,8,10000,10000,0\nS2,E\"1,,8,10000,10000,0\n",
        b"refused SIGNALS row 3 column sender\n",
    ),
    (
        1,
        b"signal,sender,pdu,bits,period_us,deadline_us,jitter_us\nS1,ECU1,0,8,10000,10000,0\n",
        b"refused SIGNALS row 2 column pdu\n",
    ),
    // An I-PDU of two senders, and one of 512 bits and one more.
    (
        1,
        b"signal,sender,pdu,bits,period_us,deadline_us,jitter_us\nS1,ECU1,1,8,10000,10000,0\nS2,ECU2,1,8,10000,10000,0\n",
        b"refused SIGNALS row 3 pdu of another sender\n",
    ),
    (
        1,
        b"signal,sender,pdu,bits,period_us,deadline_us,jitter_us\nS1,ECU1,1,512,10000,10000,0\nS2,ECU1,1,1,10000,10000,0\n",
        b"refused SIGNALS pdu 1 too large\n",
    ),
    // Periods without a common divisor.
    (
        1,
        b"signal,sender,pdu,bits,period_us,deadline_us,jitter_us\nS1,ECU1,,8,99999999,10000,0\nS2,ECU1,,8,100000000,10000,0\n",
        b"refused SIGNALS periods mixed\n",
    ),
    (2, b"", b"refused MATRIX header\n"),
    (
        2,
        b"id,sender,size,ticks,header,pdu,at,signal,start,bits\n2048,ECU1,2,7400,none,,0,S1,0,8\n2048,ECU1,2,7400,none,,0,S2,8,8\n",
        b"refused MATRIX row 2 column id\n",
    ),
    // A size that isn't listed.
    (
        2,
        b"id,sender,size,ticks,header,pdu,at,signal,start,bits\n256,ECU1,9,7400,none,,0,S1,0,8\n",
        b"refused MATRIX row 2 column size\n",
    ),
    (
        2,
        b"id,sender,size,ticks,header,pdu,at,signal,start,bits\n256,ECU1,2,7400,none,,0,S1,0,8\n256,ECU1,2,7400,None,,0,S2,8,8\n",
        b"refused MATRIX row 3 column header\n",
    ),
    (
        3,
        b"canpack certificate 1\nkind best\nend\n",
        b"refused CERT line 3\n",
    ),
    (
        3,
        b"canpack certificate 1\nkind placed\nend",
        b"refused CERT cut\n",
    ),
    (
        3,
        b"canpack certificate 1\nkind placed\nend\n\n",
        b"refused CERT line 4\n",
    ),
    (3, b"", b"refused CERT cut\n"),
];

#[test]
fn one_text_refused(rt: HostRuntime) -> Result<(), Fail> {
    for (number, (file, text, said)) in REFUSED.iter().enumerate() {
        let mut texts = TWO_SIGNALS;
        texts[*file] = text;
        expect_check(&rt, number, &texts, 4, said)?;
    }
    Ok(())
}
