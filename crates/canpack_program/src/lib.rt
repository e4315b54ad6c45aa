//! The program, for every `main` that is stored with a run of its own: its words, the real folder and the real output go
//! to the top call.
#![tactic(auto)]

use canpack_top::canpack;
use pack_base::{OpenGate, RealFolder, RealOut};
use std::rt::{Env, Files};
use std::thread::Threads;
use std::{env, io};

/// The words after the program's name.
fn words_of<R: Env + AllocGlobal>(rt: &R) -> io::Result<Vec<String>> {
    let mut words = Vec::new(rt.alloc());
    for word in env::args(rt)?.skip(1) {
        words.push(word)?;
    }
    Ok(words)
}

/// Does what the program's words ask for, over real files and the standard output, and answers the status to end with:
/// that of `canpack`, or 8 where the system gives no words as text, 6 where it names want of memory.
pub fn program<R: Env + Files + Print + Threads + Sync + AllocGlobal>(rt: &R) -> u8 {
    match words_of(rt) {
        Ok(words) => {
            let mut folder = RealFolder::new(rt);
            let mut out = RealOut::new(rt);
            canpack(rt, rt.alloc(), &words, &mut folder, &mut out, &OpenGate)
        }
        Err(e) if e.kind() == io::ErrorKind::OutOfMemory => 6,
        Err(_) => 8,
    }
}
