// One run of the top call over files in memory.
use canpack_top::canpack;
use pack_base::{Folder, Gate, MemFolder, MemSink, Memory, OpenGate};
use std::process::Abort;
use std::test::Fail;
use std::thread::Threads;

/// The four file words of each run.
pub const NAMES: [&str; 4] = ["network.json", "signals.csv", "matrix.csv", "cert.txt"];

/// The words of `check` over these files by one worker.
pub const CHECK: [&str; 6] = [
    "check",
    "network.json",
    "signals.csv",
    "matrix.csv",
    "cert.txt",
    "1",
];

pub const NETWORK: &[u8] =
    b"{\"version\":1,\"ticks_per_us\":80,\"nominal_ticks\":160,\"data_ticks\":40,\"first_id\":256}\n";

pub const SIGNALS: &[u8] =
    b"signal,sender,pdu,bits,period_us,deadline_us,jitter_us\nS1,ECU1,,8,10000,10000,0\nS2,ECU1,,8,10000,10000,0\n";

pub const MATRIX: &[u8] =
    b"id,sender,size,ticks,header,pdu,at,signal,start,bits\n256,ECU1,2,7400,none,,0,S1,0,8\n256,ECU1,2,7400,none,,0,S2,8,8\n";

/// Each signal in a frame of its own.
pub const TWO_FRAMES: &[u8] =
    b"id,sender,size,ticks,header,pdu,at,signal,start,bits\n256,ECU1,1,7000,none,,0,S1,0,8\n257,ECU1,1,7000,none,,0,S2,0,8\n";

/// A matrix without rows.
pub const NO_ROWS: &[u8] = b"id,sender,size,ticks,header,pdu,at,signal,start,bits\n";

pub const CERT: &[u8] = b"canpack certificate 1\nkind placed\nend\n";

/// Two signals in one frame, which `check` accepts.
pub const TWO_SIGNALS: [&[u8]; 4] = [NETWORK, SIGNALS, MATRIX, CERT];

/// A folder with these texts under the four names.
pub(crate) fn folder_of<R: AllocGlobal>(rt: &R, texts: &[&[u8]; 4]) -> Result<MemFolder, Memory> {
    let mut folder = MemFolder::new(rt.alloc());
    for (name, text) in NAMES.iter().zip(texts) {
        folder.put(name, text)?;
    }
    Ok(folder)
}

/// The status of the top call for these words, where shards enter this gate.
pub(crate) fn status_by<R: AllocGlobal + Threads + Sync, F: Folder, G: Gate + Sync>(
    rt: &R,
    words: &[&str],
    folder: &mut F,
    out: &mut MemSink,
    gate: &G,
) -> Result<u8, Memory> {
    let mut given = Vec::new(rt.alloc());
    for word in words {
        given.push(String::from_str(rt.alloc(), word)?)?;
    }
    Ok(canpack(rt, rt.alloc(), &given, folder, out, gate))
}

/// The status of the top call for these words.
pub(crate) fn status_of<R: AllocGlobal + Threads + Sync>(
    rt: &R,
    words: &[&str],
    folder: &mut MemFolder,
    out: &mut MemSink,
) -> Result<u8, Memory> {
    status_by(rt, words, folder, out, &OpenGate)
}

/// `check` ends with this status over these texts and says this, with reads of at most so many bytes and by so many
/// workers.
pub(crate) fn expect_by_reads<R: AllocGlobal + Threads + Sync + Abort>(
    rt: &R,
    row: usize,
    texts: &[&[u8]; 4],
    most: usize,
    workers: &str,
    status: u8,
    said: &[u8],
) -> Result<(), Fail> {
    let mut folder = folder_of(rt, texts)?;
    folder.short_reads(most.max(1));
    let mut out = MemSink::new(rt.alloc());
    let mut words = CHECK;
    words[5] = workers;
    let answer = status_of(rt, &words, &mut folder, &mut out)?;
    assert_eq!(rt; answer, status, "row {row}");
    assert_eq!(rt; out.said(), said, "row {row}");
    Ok(())
}

/// The same with whole reads, with reads of one byte, and by many workers.
pub(crate) fn expect_check<R: AllocGlobal + Threads + Sync + Abort>(
    rt: &R,
    row: usize,
    texts: &[&[u8]; 4],
    status: u8,
    said: &[u8],
) -> Result<(), Fail> {
    expect_by_reads(rt, row, texts, usize::MAX, "1", status, said)?;
    expect_by_reads(rt, row, texts, 1, "2", status, said)?;
    expect_by_reads(rt, row, texts, usize::MAX, "64", status, said)
}
