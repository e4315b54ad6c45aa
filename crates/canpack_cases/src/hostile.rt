// Hostile texts: each is refused or read by its rule, and none makes the program fail.
use crate::runs::{TWO_SIGNALS, expect_by_reads, expect_check};
use std::alloc::{AllocError, Global};
use std::test::Fail;

/// The text of one file in the place of the accepted one, by its number from 0, with the status and what is said.
const TEXTS: [(usize, &[u8], u8, &[u8]); 24] = [
    // JSON: numbers of other forms, members repeated or further, NUL, a mark, no object, a text cut short.
    (
        0,
        b"{\"version\":1.0,\"ticks_per_us\":80,\"nominal_ticks\":160,\"data_ticks\":40,\"first_id\":256}",
        4,
        b"refused NETWORK member 1\n",
    ),
    (
        0,
        b"{\"version\":1e0,\"ticks_per_us\":80,\"nominal_ticks\":160,\"data_ticks\":40,\"first_id\":256}",
        4,
        b"refused NETWORK member 1\n",
    ),
    (
        0,
        b"{\"version\":1,\"ticks_per_us\":80,\"nominal_ticks\":160,\"data_ticks\":40,\"first_id\":-0}",
        4,
        b"refused NETWORK member 5\n",
    ),
    (
        0,
        b"{\"version\":01,\"ticks_per_us\":80,\"nominal_ticks\":160,\"data_ticks\":40,\"first_id\":256}",
        4,
        b"refused NETWORK not json\n",
    ),
    (
        0,
        b"{\"version\":1,\"ticks_per_us\":18446744073709551616,\"nominal_ticks\":160,\"data_ticks\":40,\"first_id\":256}",
        4,
        b"refused NETWORK member 2\n",
    ),
    (
        0,
        b"{\"version\":1,\"ticks_per_us\":80,\"nominal_ticks\":160,\"data_ticks\":161,\"first_id\":256}",
        4,
        b"refused NETWORK member 4\n",
    ),
    (
        0,
        b"{\"version\":1,\"ticks_per_us\":80,\"nominal_ticks\":160,\"data_ticks\":40,\"first_id\":1921}",
        4,
        b"refused NETWORK member 5\n",
    ),
    (
        0,
        b"{\"version\":7,\"ticks_per_us\":80,\"nominal_ticks\":160,\"data_ticks\":40,\"first_id\":256,\"version\":1}",
        0,
        b"placed\n",
    ),
    (
        0,
        b"{\"version\":1,\"ticks_per_us\":80,\"nominal_ticks\":160,\"data_ticks\":40,\"first_id\":256,\"more\":0}",
        4,
        b"refused NETWORK member 6\n",
    ),
    (
        0,
        b"{\"version\":1,\"ticks_per_us\":80,\"nominal_ticks\":160,\"data_ticks\":40,\"first_id\":256}\0",
        4,
        b"refused NETWORK not json\n",
    ),
    (
        0,
        b"\xef\xbb\xbf{\"version\":1,\"ticks_per_us\":80,\"nominal_ticks\":160,\"data_ticks\":40,\"first_id\":256}",
        0,
        b"placed\n",
    ),
    (0, b"[1]", 4, b"refused NETWORK member 0\n"),
    (0, b"{\"version\":1,", 4, b"refused NETWORK not json\n"),
    // CSV: a mark, a quote that is never closed, lone CRs as line ends, NUL, leading zeros, ranges, a wide row.
    (
        1,
        b"\xef\xbb\xbfsignal,sender,pdu,bits,period_us,deadline_us,jitter_us\nS1,ECU1,,8,10000,10000,0\nS2,ECU1,,8,10000,10000,0\n",
        0,
        b"placed\n",
    ),
    (
        1,
        b"signal,sender,pdu,bits,period_us,deadline_us,jitter_us\n\"S1,ECU1,,8,10000,10000,0\nS2,ECU1,,8,10000,10000,0\n",
        4,
        b"refused SIGNALS row 2 column count\n",
    ),
    (
        1,
        b"signal,sender,pdu,bits,period_us,deadline_us,jitter_us\rS1,ECU1,,8,10000,10000,0\r\"S2\",ECU1,,8,10000,10000,0",
        0,
        b"placed\n",
    ),
    (
        1,
        b"signal,sender,pdu,bits,period_us,deadline_us,jitter_us\nS1\0,ECU1,,8,10000,10000,0\nS2,ECU1,,8,10000,10000,0\n",
        4,
        b"refused SIGNALS row 2 column signal\n",
    ),
    (
        1,
        b"signal,sender,pdu,bits,period_us,deadline_us,jitter_us\nS1,ECU1,,08,10000,10000,0\nS2,ECU1,,8,10000,10000,0\n",
        4,
        b"refused SIGNALS row 2 column bits\n",
    ),
    (
        1,
        b"signal,sender,pdu,bits,period_us,deadline_us,jitter_us\nS1,ECU1,,513,10000,10000,0\nS2,ECU1,,8,10000,10000,0\n",
        4,
        b"refused SIGNALS row 2 column bits\n",
    ),
    (
        1,
        b"signal,sender,pdu,bits,period_us,deadline_us,jitter_us\nS1,ECU1,,8,100000001,10000,0\nS2,ECU1,,8,10000,10000,0\n",
        4,
        b"refused SIGNALS row 2 column period_us\n",
    ),
    (
        1,
        b"signal,sender,pdu,bits,period_us,deadline_us,jitter_us\nS1,ECU1,,8,10000,10000,0,\nS2,ECU1,,8,10000,10000,0\n",
        4,
        b"refused SIGNALS row 2 column count\n",
    ),
    (
        2,
        b"\xef\xbb\xbfid,sender,size,ticks,header,pdu,at,signal,start,bits\n256,ECU1,2,7400,none,,0,S1,0,8\n256,ECU1,2,7400,none,,0,S2,8,8\n",
        0,
        b"placed\n",
    ),
    (
        2,
        b"id,sender,size,ticks,header,pdu,at,signal,start,bits\n256,ECU1,2,7400,none,,0,S1,0,8\n256,ECU1,2,7400,none,,0,S2,08,8\n",
        4,
        b"refused MATRIX row 3 column start\n",
    ),
    (
        3,
        b"\xef\xbb\xbfcanpack certificate 1\nkind placed\nend\n",
        4,
        b"refused CERT line 1\n",
    ),
];

#[test]
fn one_hostile_text(rt: HostRuntime) -> Result<(), Fail> {
    for (number, (file, text, status, said)) in TEXTS.iter().enumerate() {
        let mut texts = TWO_SIGNALS;
        texts[*file] = text;
        expect_check(&rt, number, &texts, *status, said)?;
    }
    Ok(())
}

/// A large text in the place of one file: a front, a byte that comes so often, another that comes so often, and
/// an end.
#[derive(Clone, Copy)]
struct Large {
    file: usize,
    front: &'static [u8],
    first: (u8, usize),
    second: (u8, usize),
    end: &'static [u8],
    status: u8,
    said: &'static [u8],
}

const OBJECT: &[u8] =
    b"{\"version\":1,\"ticks_per_us\":80,\"nominal_ticks\":160,\"data_ticks\":40,\"first_id\":256}";

const HEADER: &[u8] = b"signal,sender,pdu,bits,period_us,deadline_us,jitter_us\n";

const ROWS: &[u8] = b"S1,ECU1,,8,10000,10000,0\nS2,ECU1,,8,10000,10000,0\n";

const MATRIX_HEADER: &[u8] = b"id,sender,size,ticks,header,pdu,at,signal,start,bits\n";

const LARGE: [Large; 11] = [
    // 16 MiB exactly, and a byte more.
    Large {
        file: 0,
        front: OBJECT,
        first: (b' ', 16777134),
        second: (0, 0),
        end: b"",
        status: 0,
        said: b"placed\n",
    },
    Large {
        file: 0,
        front: OBJECT,
        first: (b' ', 16777135),
        second: (0, 0),
        end: b"",
        status: 4,
        said: b"refused NETWORK too large\n",
    },
    Large {
        file: 1,
        front: HEADER,
        first: (b'\n', 16777111),
        second: (0, 0),
        end: ROWS,
        status: 0,
        said: b"placed\n",
    },
    Large {
        file: 1,
        front: HEADER,
        first: (b'\n', 16777112),
        second: (0, 0),
        end: ROWS,
        status: 4,
        said: b"refused SIGNALS too large\n",
    },
    // Arrays 127 and 128 deep, and far deeper.
    Large {
        file: 0,
        front: b"",
        first: (b'[', 127),
        second: (b']', 127),
        end: b"",
        status: 4,
        said: b"refused NETWORK member 0\n",
    },
    Large {
        file: 0,
        front: b"",
        first: (b'[', 128),
        second: (b']', 128),
        end: b"",
        status: 4,
        said: b"refused NETWORK not json\n",
    },
    Large {
        file: 0,
        front: b"",
        first: (b'[', 1_000_000),
        second: (0, 0),
        end: b"",
        status: 4,
        said: b"refused NETWORK not json\n",
    },
    // A million empty lines, and fields of a megabyte.
    Large {
        file: 1,
        front: HEADER,
        first: (b'\n', 1_000_000),
        second: (0, 0),
        end: ROWS,
        status: 0,
        said: b"placed\n",
    },
    Large {
        file: 1,
        front: HEADER,
        first: (b'x', 1_000_000),
        second: (0, 0),
        end: ROWS,
        status: 4,
        said: b"refused SIGNALS row 2 column signal\n",
    },
    Large {
        file: 2,
        front: MATRIX_HEADER,
        first: (b'"', 1),
        second: (b'x', 1_000_000),
        end: b"",
        status: 4,
        said: b"refused MATRIX row 2 column count\n",
    },
    Large {
        file: 3,
        front: b"canpack certificate 1\nkind placed\nend\n",
        first: (b'\n', 1_000_000),
        second: (0, 0),
        end: b"",
        status: 4,
        said: b"refused CERT line 4\n",
    },
];

fn text_of(alloc: Global, large: &Large) -> Result<Vec<u8>, AllocError> {
    let mut text = Vec::new(alloc);
    text.extend_from_slice(large.front)?;
    for (byte, count) in [large.first, large.second] {
        let many = vec![in alloc; byte; count]?;
        text.extend_from_slice(&many)?;
    }
    text.extend_from_slice(large.end)?;
    Ok(text)
}

#[test]
fn large_texts(rt: HostRuntime) -> Result<(), Fail> {
    for (number, large) in LARGE.iter().enumerate() {
        let text = text_of(rt.alloc(), large)?;
        let mut texts = TWO_SIGNALS;
        texts[large.file] = &text;
        expect_by_reads(
            &rt,
            number,
            &texts,
            usize::MAX,
            "1",
            large.status,
            large.said,
        )?;
    }
    Ok(())
}
