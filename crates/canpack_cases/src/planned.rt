// What `plan` writes, and what is left where a call fails.
use crate::runs::{CHECK, MATRIX, NAMES, NETWORK, NO_ROWS, SIGNALS, status_of};
use pack_base::{MemFolder, MemSink};
use std::test::Fail;

const PLAN: [&str; 7] = [
    "plan",
    "network.json",
    "signals.csv",
    "matrix.csv",
    "cert.txt",
    "1000",
    "1",
];

/// The two signals in one frame of 2 bytes, the best: with one of them placed, 56000 eighths and 3200 for the other are
/// what the frame costs.
const BEST_CERT: &[u8] = b"canpack certificate 1\nkind best\nframe 7400 0\nmain\ni 1\nb\nend\n";

/// Two I-PDUs of 8 bits.
const TWO_PDUS: &[u8] =
    b"signal,sender,pdu,bits,period_us,deadline_us,jitter_us\nS1,ECU1,1,8,10000,10000,0\nS2,ECU1,2,8,10000,10000,0\n";

/// The two I-PDUs in a container with short headers.
const PLANNED_PDUS: &[u8] =
    b"id,sender,size,ticks,header,pdu,at,signal,start,bits\n256,ECU1,12,11400,short,1,4,S1,32,8\n256,ECU1,12,11400,short,2,9,S2,72,8\n";

const PDUS_CERT: &[u8] =
    b"canpack certificate 1\nkind best\nframe 11400 0\nmain\ni 1\ni 2\nb\nb\nend\n";

/// A signal of 8 bits, with 10 ms and with 87 us to be sent in; its frame takes 87.5 us.
const ONE: &[u8] =
    b"signal,sender,pdu,bits,period_us,deadline_us,jitter_us\nS1,ECU1,,8,10000,10000,0\n";

const LATE: &[u8] =
    b"signal,sender,pdu,bits,period_us,deadline_us,jitter_us\nS1,ECU1,,8,10000,87,0\n";

/// It in a frame of its own, alone on the bus.
const PLANNED_ONE: &[u8] =
    b"id,sender,size,ticks,header,pdu,at,signal,start,bits\n256,ECU1,1,7000,none,,0,S1,0,8\n";

const ONE_CERT: &[u8] = b"canpack certificate 1\nkind best\nframe 7000 0\nmain\ni 1\nb\nend\n";

/// It can't be in time.
const LATE_CERT: &[u8] = b"canpack certificate 1\nkind none\nmain\ni 1\nf 1\nlate 0 0 1 / 0\nend\n";

/// Three signals of 64 bytes every ms: 97200 ticks of 80000.
const THREE: &[u8] =
    b"signal,sender,pdu,bits,period_us,deadline_us,jitter_us\nA,E1,,512,1000,1000,0\nB,E2,,512,1000,1000,0\nC,E3,,512,1000,1000,0\n";

/// Whatever is packed with what, they fill the bus.
const THREE_CERT: &[u8] =
    b"canpack certificate 1\nkind none\nmain\ni 1\ni 1\ni 1\nf 3\nover 0\nover 1\nover 2\nend\n";

/// A signal of more bits than a frame has.
const TOO_WIDE: &[u8] =
    b"signal,sender,pdu,bits,period_us,deadline_us,jitter_us\nS1,ECU1,,513,10000,10000,0\n";

/// Words that are no line of `plan`.
const WRONG: [&[&str]; 7] = [
    &[
        "plan",
        "network.json",
        "signals.csv",
        "out",
        "out",
        "1000",
        "1",
    ],
    &[
        "plan",
        "network.json",
        "signals.csv",
        "matrix.csv",
        "cert.txt",
        "0",
        "1",
    ],
    &[
        "plan",
        "network.json",
        "signals.csv",
        "matrix.csv",
        "cert.txt",
        "1000001",
        "1",
    ],
    &[
        "plan",
        "network.json",
        "signals.csv",
        "matrix.csv",
        "cert.txt",
        "01",
        "1",
    ],
    &[
        "plan",
        "network.json",
        "signals.csv",
        "matrix.csv",
        "cert.txt",
        "1000",
        "2",
    ],
    &[
        "plan",
        "network.json",
        "signals.csv",
        "matrix.csv",
        "",
        "1000",
        "1",
    ],
    &[
        "plan",
        "network.json",
        "signals.csv",
        "matrix.csv",
        "cert.txt",
        "1000",
    ],
];

#[test]
fn wrong_words_write_nothing(rt: HostRuntime) -> Result<(), Fail> {
    for (number, words) in WRONG.iter().enumerate() {
        let mut folder = MemFolder::new(rt.alloc());
        let mut out = MemSink::new(rt.alloc());
        assert_eq!(rt;
            status_of(&rt, words, &mut folder, &mut out)?,
            1,
            "words {number}"
        );
        assert!(rt; folder.get("out").is_none(), "words {number}");
    }
    Ok(())
}

/// SIGNALS, the status, MATRIX and CERT after it, and what is said.
const WRITTEN: [(&[u8], u8, Option<&[u8]>, Option<&[u8]>, &[u8]); 5] = [
    (
        TWO_PDUS,
        0,
        Some(PLANNED_PDUS),
        Some(PDUS_CERT),
        b"best 11400/800000\n",
    ),
    (
        ONE,
        0,
        Some(PLANNED_ONE),
        Some(ONE_CERT),
        b"best 7000/800000\n",
    ),
    (LATE, 10, Some(NO_ROWS), Some(LATE_CERT), b"none\n"),
    (THREE, 10, Some(NO_ROWS), Some(THREE_CERT), b"none\n"),
    (
        TOO_WIDE,
        4,
        None,
        None,
        b"refused SIGNALS row 2 column bits\n",
    ),
];

#[test]
fn files_after_other_signals(rt: HostRuntime) -> Result<(), Fail> {
    for (number, (signals, status, matrix, cert, said)) in WRITTEN.iter().enumerate() {
        let mut folder = MemFolder::new(rt.alloc());
        folder.put(NAMES[0], NETWORK)?;
        folder.put(NAMES[1], signals)?;
        let mut out = MemSink::new(rt.alloc());
        assert_eq!(rt;
            status_of(&rt, &PLAN, &mut folder, &mut out)?,
            *status,
            "signals {number}"
        );
        assert_eq!(rt; folder.get("matrix.csv"), *matrix, "signals {number}");
        assert_eq!(rt; folder.get("cert.txt"), *cert, "signals {number}");
        assert_eq!(rt; out.said(), *said, "signals {number}");
    }
    Ok(())
}

/// The call of the folder that fails, whether saying fails, the status, MATRIX and CERT after it, and what is said.
/// The two texts take two calls each to read, and each file one to create and one to append to.
const RUNS: [(u64, bool, u8, Option<&[u8]>, Option<&[u8]>, &[u8]); 8] = [
    (
        0,
        false,
        0,
        Some(MATRIX),
        Some(BEST_CERT),
        b"best 7400/800000\n",
    ),
    (0, true, 7, Some(MATRIX), Some(BEST_CERT), b""),
    (3, false, 2, None, None, b""),
    (5, false, 3, None, None, b""),
    (6, false, 3, Some(b""), None, b""),
    (7, false, 3, Some(MATRIX), None, b""),
    (8, false, 3, Some(MATRIX), Some(b""), b""),
    (
        9,
        false,
        0,
        Some(MATRIX),
        Some(BEST_CERT),
        b"best 7400/800000\n",
    ),
];

#[test]
fn files_after_a_plan(rt: HostRuntime) -> Result<(), Fail> {
    for (number, (call, mute, status, matrix, cert, said)) in RUNS.iter().enumerate() {
        let mut folder = MemFolder::new(rt.alloc());
        folder.put(NAMES[0], NETWORK)?;
        folder.put(NAMES[1], SIGNALS)?;
        folder.fail_at(*call)?;
        let mut out = MemSink::new(rt.alloc());
        if *mute {
            out.fail_at(1)?;
        }
        assert_eq!(rt;
            status_of(&rt, &PLAN, &mut folder, &mut out)?,
            *status,
            "run {number}"
        );
        assert_eq!(rt; folder.get("matrix.csv"), *matrix, "run {number}");
        assert_eq!(rt; folder.get("cert.txt"), *cert, "run {number}");
        assert_eq!(rt; folder.get("signals.csv"), Some(SIGNALS), "run {number}");
        assert_eq!(rt; out.said(), *said, "run {number}");
    }
    Ok(())
}

/// Four senders with six signals each.
pub const FOUR_SENDERS: &[u8] =
    b"signal,sender,pdu,bits,period_us,deadline_us,jitter_us\nA1,ECU1,,8,10000,,\nA2,ECU1,,16,10000,,\nA3,ECU1,,12,20000,,\nA4,ECU1,,10,20000,,\nA5,ECU1,,8,50000,,\nA6,ECU1,,16,100000,,\nB1,ECU2,,8,10000,,\nB2,ECU2,,16,10000,,\nB3,ECU2,,12,20000,,\nB4,ECU2,,10,20000,,\nB5,ECU2,,8,50000,,\nB6,ECU2,,16,100000,,\nC1,ECU3,,8,10000,,\nC2,ECU3,,16,10000,,\nC3,ECU3,,12,20000,,\nC4,ECU3,,10,20000,,\nC5,ECU3,,8,50000,,\nC6,ECU3,,16,100000,,\nD1,ECU4,,8,10000,,\nD2,ECU4,,16,10000,,\nD3,ECU4,,12,20000,,\nD4,ECU4,,10,20000,,\nD5,ECU4,,8,50000,,\nD6,ECU4,,16,100000,,\n";

/// Signals that are planned within so many branches, the status, and what `plan` and then `check` say.
const PLANS: [(&[u8], &str, u8, u8, &[u8]); 14] = [
    // Two signals: one step leaves the second open, the third one finds both in one frame, and the fourth is the last.
    (
        SIGNALS,
        "1",
        11,
        0,
        b"open 14000/800000 59200/6400000\nopen 14000/800000 59200/6400000\n",
    ),
    (
        SIGNALS,
        "3",
        11,
        0,
        b"open 7400/800000 59200/6400000\nopen 7400/800000 59200/6400000\n",
    ),
    (SIGNALS, "4", 0, 0, b"best 7400/800000\nbest 7400/800000\n"),
    (THREE, "1000", 10, 0, b"none\nnone\n"),
    // Two senders, and signals of 9, 33 and 49 bits every 10 ms and of 512 bits every second: 9 and 49 bits together are a
    // frame of 9800 ticks; the others have 8600 and 32400.
    (
        b"signal,sender,pdu,bits,period_us,deadline_us,jitter_us\nA,E2,,9,10000,,\nB,E1,,33,10000,,\nC,E2,,49,10000,,\nD,E1,,512,1000000,,\n",
        "1000",
        0,
        0,
        b"best 1872400/80000000\nbest 1872400/80000000\n",
    ),
    (
        b"signal,sender,pdu,bits,period_us,deadline_us,jitter_us\n",
        "1000",
        4,
        4,
        b"refused SIGNALS no signals\nrefused SIGNALS no signals\n",
    ),
    // An I-PDU of two signals, one of 512 bits, and a free signal: frames of 7400, 32400 and 7000 ticks.
    (
        b"signal,sender,pdu,bits,period_us,deadline_us,jitter_us\nA,E2,7,9,10000,,\nB,E1,4294967295,512,10000,,\nC,E2,7,3,10000,,\nD,E1,,1,10000,,\n",
        "1000",
        0,
        0,
        b"best 46800/800000\nbest 46800/800000\n",
    ),
    // Together a signal every 10 ms and a long one every second would be sent every 10 ms.
    (
        b"signal,sender,pdu,bits,period_us,deadline_us,jitter_us\nS1,ECU1,,8,10000,,\nS2,ECU1,,504,1000000,,\n",
        "1000",
        0,
        0,
        b"best 732400/80000000\nbest 732400/80000000\n",
    ),
    // Two senders share no frame.
    (
        b"signal,sender,pdu,bits,period_us,deadline_us,jitter_us\nS1,ECU1,,8,10000,,\nS2,ECU2,,8,10000,,\n",
        "1000",
        0,
        0,
        b"best 14000/800000\nbest 14000/800000\n",
    ),
    // With long headers a container would have 18 bytes.
    (
        b"signal,sender,pdu,bits,period_us,deadline_us,jitter_us\nS1,ECU1,1,8,10000,,\nS2,ECU1,16777216,8,10000,,\n",
        "1000",
        0,
        0,
        b"best 14000/800000\nbest 14000/800000\n",
    ),
    // A byte order mark, and lines that end with CR LF.
    (
        b"\xef\xbb\xbfsignal,sender,pdu,bits,period_us,deadline_us,jitter_us\r\nS1,ECU1,,8,10000,10000,0\r\nS2,ECU1,,8,10000,10000,0\r\n",
        "1000",
        0,
        0,
        b"best 7400/800000\nbest 7400/800000\n",
    ),
    // 88 us are enough for a frame of 87.5.
    (
        b"signal,sender,pdu,bits,period_us,deadline_us,jitter_us\nS1,ECU1,,8,10000,88,0\n",
        "1000",
        0,
        0,
        b"best 7000/800000\nbest 7000/800000\n",
    ),
    // Twelve frames of 7000 ticks every 80000.
    (
        b"signal,sender,pdu,bits,period_us,deadline_us,jitter_us\nA,E1,,8,1000,,\nB,E2,,8,1000,,\nC,E3,,8,1000,,\nD,E4,,8,1000,,\nE,E5,,8,1000,,\nF,E6,,8,1000,,\nG,E7,,8,1000,,\nH,E8,,8,1000,,\nI,E9,,8,1000,,\nJ,E10,,8,1000,,\nK,E11,,8,1000,,\nL,E12,,8,1000,,\n",
        "1000",
        10,
        0,
        b"none\nnone\n",
    ),
    // Four senders: each has its first five signals in a frame of 9400 ticks ten times, and the last in one of 7400.
    (
        FOUR_SENDERS,
        "100000",
        0,
        0,
        b"best 405600/8000000\nbest 405600/8000000\n",
    ),
];

#[test]
fn planned_then_checked(rt: HostRuntime) -> Result<(), Fail> {
    for (number, (signals, branches, planned, checked, said)) in PLANS.iter().enumerate() {
        let mut folder = MemFolder::new(rt.alloc());
        folder.put(NAMES[0], NETWORK)?;
        folder.put(NAMES[1], signals)?;
        let mut out = MemSink::new(rt.alloc());
        let words = [
            "plan", NAMES[0], NAMES[1], NAMES[2], NAMES[3], *branches, "1",
        ];
        assert_eq!(rt;
            status_of(&rt, &words, &mut folder, &mut out)?,
            *planned,
            "plan {number}"
        );
        assert_eq!(rt;
            status_of(&rt, &CHECK, &mut folder, &mut out)?,
            *checked,
            "plan {number}"
        );
        assert_eq!(rt; out.said(), *said, "plan {number}");
    }
    Ok(())
}
