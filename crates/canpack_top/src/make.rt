//! `make`: the writing of a generated case.
ghost use Rattle.std.specs.Prelude.{◌≡◌, ◌≤◌, ◌⊎◌, IfOk, IsErr, IsErrOf, IsSome, IsTrue, OnOk, string_bytes};
ghost use Rattle.pack_base.specs.Outside.{Later};
ghost use Rattle.case_gen.specs.Generated.{parts_of_case};
ghost use Rattle.canpack_top.specs.Command.{are_case_names, case_names_of};
ghost use Rattle.canpack_top.specs.Make.{
  CasePartWritten,
  CaseWritten,
  HasCase,
  ReadsNetwork,
  ReadsSignals,
  case_line,
  case_names,
  case_network_text,
  case_signals_text,
  count_line,
  make_answer,
  make_meaning,
};
ghost use Rattle.canpack_top.specs.Meaning.{Runs, seen};
ghost use Rattle.canpack_top.specs.Reads.{SomeRose};

use crate::command::CaseNames;
use crate::ending::{Answer, Halt, Status};
use crate::writing::write_both;
use case_gen::problem_of_case;
use input_text::{write_network, write_signals};
use pack_base::Folder;
use pack_model::{Memory, Problem};
use std::alloc::{AllocError, Global};

/// The two texts of a case, and its line.
#[derive(Debug, Drop)]
struct CaseTexts {
    network: Vec<u8>,
    signals: Vec<u8>,
    line: Vec<u8>,
}

fn count_text(alloc: Global, number: u32, problem: &Problem) -> Result<String, AllocError>
    ensures { IfOk result (λ text. string_bytes text ≡ count_line number problem.now) }
{
    let signals = problem.signals().len();
    let senders = problem.senders().len();
    format!(in alloc; "case {number} signals {signals} senders {senders}\n")
}

/// The text of a case's network.
#[tactic(auto, unfolding(crate::specs::Make::case_network_text, crate::specs::Make::ReadsNetwork))]
fn network_text(alloc: Global, number: u32, problem: &Problem) -> Result<Vec<u8>, Memory>
    requires { problem.now ≡ parts_of_case number }
    ensures text { IfOk result (λ text. text.items ≡ case_network_text number) }
    ensures reads { OnOk result (ReadsNetwork number (case_network_text number)) }
{
    write_network(alloc, problem.network())
}

/// The text of a case's signals.
#[tactic(auto, unfolding(crate::specs::Make::case_signals_text, crate::specs::Make::ReadsSignals))]
fn signals_text(alloc: Global, number: u32, problem: &Problem) -> Result<Vec<u8>, Memory>
    requires { problem.now ≡ parts_of_case number }
    ensures text { IfOk result (λ text. text.items ≡ case_signals_text number) }
    ensures reads { OnOk result (ReadsSignals number (case_signals_text number)) }
{
    write_signals(alloc, problem.signals())
}

/// The texts of the case of a number, and its line.
#[tactic(auto, unfolding(crate::specs::Make::case_line))]
fn case_texts(alloc: Global, number: u32) -> Result<CaseTexts, Memory>
    requires { number ≤ 1000000 }
    ensures network { IfOk result (λ texts. texts.network.items ≡ case_network_text number) }
    ensures signals { IfOk result (λ texts. texts.signals.items ≡ case_signals_text number) }
    ensures line { IfOk result (λ texts. texts.line.items ≡ case_line number) }
    ensures reads_network { OnOk result (ReadsNetwork number (case_network_text number)) }
    ensures reads_signals { OnOk result (ReadsSignals number (case_signals_text number)) }
{
    let problem = problem_of_case(alloc, number)?;
    let network = network_text(alloc, number, &problem)?;
    let signals = signals_text(alloc, number, &problem)?;
    let line = count_text(alloc, number, &problem)?.into_bytes();
    Ok(CaseTexts {
        network,
        signals,
        line,
    })
}

/// Writes a case. All memory, that of the line too, is taken before the first write.
fn write_case<F: Folder>(
    alloc: Global,
    folder: &mut F,
    number: u32,
    names: CaseNames<'_>,
) -> Result<Answer, Halt>
    requires number { number ≤ 1000000 }
    requires names { IsTrue (are_case_names (case_names_of names)) }
    ensures answer { IfOk result (λ answer. seen answer ≡ make_answer number) }
    ensures written { OnOk result (CaseWritten number (case_names_of names.entry)
        (F.files folder.old) (F.files folder.new)) }
    ensures reads { OnOk result (IsSome (F.files folder.old)
        → HasCase number (case_names_of names.entry) (F.files folder.new)) }
    ensures part { IsErrOf result Halt.WriteFault → CasePartWritten number (case_names_of names.entry)
        (F.files folder.old) (F.files folder.new) }
    ensures write_fault { IsErrOf result Halt.WriteFault → SomeRose (case_names (case_names_of names.entry))
        (F.write_faults folder.old) (F.write_faults folder.new) }
    ensures writes { IsErrOf result Halt.ReadFault → ⊥ }
    ensures same { IsErr result → IsErrOf result Halt.WriteFault ⊎ (F.files folder.new ≡ F.files folder.old) }
    ensures later { Later F.read_faults F.write_faults F.given folder.old folder.new }
{
    let CaseTexts {
        network,
        signals,
        line,
    } = case_texts(alloc, number)?;
    match write_both(folder, names.network, &network, names.signals, &signals) {
        Ok(()) => Ok(Answer {
            status: Status::Done,
            line,
        }),
        Err(_) => Err(Halt::WriteFault),
    }
}

/// Writes the network and the signals of the case of a number, 0 to 1000000.
#[tactic(none)]
pub fn make<F: Folder>(
    alloc: Global,
    folder: &mut F,
    number: u32,
    names: CaseNames<'_>,
) -> Result<Answer, Halt>
    requires number { number ≤ 1000000 }
    requires names { IsTrue (are_case_names (case_names_of names)) }
    ensures { Runs (make_meaning number (case_names_of names.entry))
        F.files F.read_faults F.write_faults F.given folder.old folder.new result }
{
    write_case(alloc, folder, number, names)
}
