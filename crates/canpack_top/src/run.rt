//! One command.
ghost use Rattle.canpack_top.specs.Command.{HasNames};
ghost use Rattle.canpack_top.specs.Commands.{meaning_of};
ghost use Rattle.canpack_top.specs.Meaning.{Runs};

use crate::case_plan::plan_case;
use crate::check::check;
use crate::command::{Command, case_names_in, names_in};
use crate::ending::{Answer, Halt};
use crate::make::make;
use crate::plan::plan;
use pack_base::{Folder, Gate};
use std::alloc::Global;
use std::thread::Threads;

/// Does what a command asks for, but for saying its line.
pub fn run<R: Threads + Sync, F: Folder, G: Gate + Sync>(
    rt: &R,
    alloc: Global,
    folder: &mut F,
    words: &[String],
    command: Command,
    gate: &G,
) -> Result<Answer, Halt>
    requires { HasNames words.now command }
    ensures { Runs (meaning_of command words.now)
        F.files F.read_faults F.write_faults F.given folder.old folder.new result }
{
    match command {
        Command::CheckFiles { workers } => check(rt, alloc, folder, names_in(words), workers, gate),
        Command::PlanFiles { branches, .. } => plan(alloc, folder, names_in(words), branches),
        Command::MakeFiles { number } => make(alloc, folder, number, case_names_in(words)),
        Command::PlanCase { number } => plan_case(alloc, folder, number),
    }
}
