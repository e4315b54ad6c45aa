//! The top call.
ghost use Rattle.std.specs.Prelude.{◌≡◌, ◌≢◌, ◌⊎◌, ◌≤◌, ℕ, [], IsSome, IsNone, IsOk};
ghost use Rattle.pack_base.specs.Counts.{Rose};
ghost use Rattle.pack_base.specs.Outside.{Later, SaidPart, and_said};
ghost use Rattle.canpack_top.specs.Answer.{
  Answered,
  IsAnswered,
  IsEnded,
  IsExcused,
  IsRefused,
  LeavesFiles,
  SaysAnswer,
  SaysNothing,
  SaysPart,
  WritesPart,
};
ghost use Rattle.canpack_top.specs.Check.{
  Accepts,
  HasNoneLate,
  HasOnePlace,
  HasPassing,
  Rejects,
  texts_at,
};
ghost use Rattle.canpack_top.specs.CasePlan.{IsCasePlan};
ghost use Rattle.canpack_top.specs.Command.{case_names_in, command_of, names_in};
ghost use Rattle.canpack_top.specs.Commands.{IsCheck, IsMake, IsPlan, IsPlanCase, OfCommand};
ghost use Rattle.canpack_top.specs.Files.{problem_at};
ghost use Rattle.canpack_top.specs.Headline.{Headline, HasBest, HasNone, IsEnough};
ghost use Rattle.canpack_top.specs.Line.{usage_line};
ghost use Rattle.canpack_top.specs.Make.{CaseWritten, HasCase, case_line};
ghost use Rattle.canpack_top.specs.Plan.{IsPlanned};
ghost use Rattle.canpack_top.specs.Reads.{SomeRose};

use crate::command::command_of;
use crate::ending::Halt;
use crate::line::usage_line;
use crate::run::run;
use pack_base::{Folder, Gate, Sink};
use std::alloc::Global;
use std::thread::Threads;

/// Says a line and answers the status, or 7 where saying failed.
fn say<O: Sink>(out: &mut O, line: &[u8], status: u8) -> u8
    requires { status ≢ 7 }
    ensures said { result ≡ status → O.said out.new ≡ and_said (O.said out.old) line.now }
    ensures other { (result ≡ status) ⊎ (result ≡ 7) }
    ensures fault { result ≡ 7 → Rose (O.faults out.old) (O.faults out.new) }
    ensures part { result ≡ 7 → SaidPart line.now (O.said out.old) (O.said out.new) }
    ensures later { O.faults out.old ≤ O.faults out.new }
{
    match out.say(line) {
        Ok(()) => status,
        Err(_) => 7,
    }
}

/// Does what the words ask for, and answers the status; what the status says is the same for each command.
fn status_of<R: Threads + Sync, F: Folder, O: Sink, G: Gate + Sync>(
    rt: &R,
    alloc: Global,
    words: &[String],
    folder: &mut F,
    out: &mut O,
    gate: &G,
) -> u8
    ensures usage { result ≡ 1 → IsNone (command_of words.now)
        × (O.said out.new ≡ and_said (O.said out.old) usage_line) }
    ensures only_usage { IsNone (command_of words.now) → (result ≡ 1) ⊎ (result ≡ 7) }
    ensures answered { IsAnswered result
        → Answered result words.now
        (F.files folder.old) (F.files folder.new) (O.said out.old) (O.said out.new) }
    ensures read_fault { result ≡ 2
        → OfCommand words.now (λ meaning.
        SomeRose meaning.reads (F.read_faults folder.old) (F.read_faults folder.new)) }
    ensures write_fault { result ≡ 3
        → OfCommand words.now (WritesPart (F.files folder.old) (F.files folder.new)
        (F.write_faults folder.old) (F.write_faults folder.new)) }
    ensures say_fault { result ≡ 7 → Rose (O.faults out.old) (O.faults out.new) }
    ensures part_said { result ≡ 7
        → SaysPart words.now (F.files folder.old) (F.files folder.new) (O.said out.old) (O.said out.new) }
    ensures statuses { (result ≡ 1) ⊎ IsAnswered result ⊎ IsExcused result }
    ensures nothing_said { SaysNothing result → O.said out.new ≡ O.said out.old }
    ensures same { LeavesFiles result → F.files folder.new ≡ F.files folder.old }
    ensures idle { OfCommand words.now (λ meaning. meaning.writes ≡ [])
        → F.files folder.new ≡ F.files folder.old }
    ensures later { Later F.read_faults F.write_faults F.given folder.old folder.new }
    ensures said_later { O.faults out.old ≤ O.faults out.new }
{
    let Some(command) = command_of(words) else {
        return say(out, usage_line(), 1);
    };
    match run(rt, alloc, folder, words, command, gate) {
        Ok(answer) => say(out, &answer.line, answer.status.number()),
        Err(Halt::ReadFault) => 2,
        Err(Halt::WriteFault) => 3,
        Err(Halt::Memory) => 6,
    }
}

/// Does what the words ask for, and answers the status: 0 done, 1 usage, 2 a read fault, 3 a write fault, 4 a
/// refused text, 5 a rejected certificate, 6 want of memory, 7 a fault in saying the line, 10 no solution, 11 branches
/// spent.
pub fn canpack<R: Threads + Sync, F: Folder, O: Sink, G: Gate + Sync>(
    rt: &R,
    alloc: Global,
    words: &[String],
    folder: &mut F,
    out: &mut O,
    gate: &G,
) -> u8
    // The cause of each status, with what was said and what is left of the files.
    ensures usage { result ≡ 1 → IsNone (command_of words.now)
        × (O.said out.new ≡ and_said (O.said out.old) usage_line) }
    ensures answered { IsAnswered result
        → Answered result words.now
        (F.files folder.old) (F.files folder.new) (O.said out.old) (O.said out.new) }
    ensures read_fault { result ≡ 2
        → OfCommand words.now (λ meaning.
        SomeRose meaning.reads (F.read_faults folder.old) (F.read_faults folder.new)) }
    ensures write_fault { result ≡ 3
        → OfCommand words.now (WritesPart (F.files folder.old) (F.files folder.new)
        (F.write_faults folder.old) (F.write_faults folder.new)) }
    ensures say_fault { result ≡ 7 → Rose (O.faults out.old) (O.faults out.new) }
    ensures part_said { result ≡ 7
        → SaysPart words.now (F.files folder.old) (F.files folder.new) (O.said out.old) (O.said out.new) }
    ensures nothing_said { SaysNothing result → O.said out.new ≡ O.said out.old }
    ensures same { LeavesFiles result → F.files folder.new ≡ F.files folder.old }
    ensures statuses { (result ≡ 1) ⊎ IsAnswered result ⊎ IsExcused result }
    ensures later { Later F.read_faults F.write_faults F.given folder.old folder.new }
    ensures said_later { O.faults out.old ≤ O.faults out.new }

    // The words and the told files decide, a fault and want of memory aside.
    ensures only_usage { IsNone (command_of words.now) → (result ≡ 1) ⊎ (result ≡ 7) }
    ensures refused { result ≡ 4 → IsSome (F.files folder.old)
        → OfCommand words.now (IsRefused (F.files folder.old)) }
    ensures refuses { IsSome (F.files folder.old) → OfCommand words.now (IsRefused (F.files folder.old))
        → (result ≡ 4) ⊎ IsExcused result }

    // `check` accepts exactly where the acceptance rule holds, and changes no file.
    ensures accepted { result ≡ 0 → IsSome (F.files folder.old) → IsCheck words.now
        → Accepts (names_in words.now) (F.files folder.old) }
    ensures headline { result ≡ 0 → IsSome (F.files folder.old) → IsCheck words.now
        → Headline (names_in words.now) (F.files folder.old) (O.said out.old) (O.said out.new) }
    ensures one_place { result ≡ 0 → IsSome (F.files folder.old) → IsCheck words.now
        → HasOnePlace (names_in words.now) (F.files folder.old) }
    ensures passes { result ≡ 0 → IsSome (F.files folder.old) → IsCheck words.now
        → HasPassing (names_in words.now) (F.files folder.old) }
    ensures never_late { result ≡ 0 → IsSome (F.files folder.old) → IsCheck words.now
        → HasNoneLate (names_in words.now) (F.files folder.old) }
    ensures rejected { result ≡ 5 → IsSome (F.files folder.old) → IsCheck words.now
        → Rejects (names_in words.now) (F.files folder.old) }
    ensures accepts { IsSome (F.files folder.old) → IsCheck words.now
        → Accepts (names_in words.now) (F.files folder.old)
        → (result ≡ 0) ⊎ IsExcused result }
    ensures rejects { IsSome (F.files folder.old) → IsCheck words.now
        → IsOk (texts_at (names_in words.now) (F.files folder.old))
        → ¬ Accepts (names_in words.now) (F.files folder.old) → (result ≡ 5) ⊎ IsExcused result }
    ensures check { IsCheck words.now → F.files folder.new ≡ F.files folder.old }

    // `plan` ends exactly where there is a problem: it wrote the plan for it within its branches and said its line;
    // `check` accepts what it wrote, with that line, and what the line promises holds. At 0 no grouping that can meet
    // all deadlines has a smaller load, at 10 there is none, and with enough branches it is one of the two.
    ensures planned { IsEnded result → IsSome (F.files folder.old)
        → (branches : ℕ) → IsPlan branches words.now
        → SaysAnswer result (O.said out.old) (O.said out.new)
        (IsPlanned (names_in words.now) branches (F.files folder.old) (F.files folder.new)) }
    ensures accepted_after { IsEnded result → IsSome (F.files folder.old)
        → (branches : ℕ) → IsPlan branches words.now
        → Accepts (names_in words.now) (F.files folder.new) }
    ensures plan_headline { IsEnded result → IsSome (F.files folder.old)
        → (branches : ℕ) → IsPlan branches words.now
        → Headline (names_in words.now) (F.files folder.new) (O.said out.old) (O.said out.new) }
    ensures best { result ≡ 0 → IsSome (F.files folder.old) → (branches : ℕ) → IsPlan branches words.now
        → HasBest (names_in words.now) (F.files folder.new) }
    ensures no_solution { result ≡ 10 → IsSome (F.files folder.old)
        → (branches : ℕ) → IsPlan branches words.now
        → HasNone (names_in words.now) (F.files folder.new) }
    ensures plans { IsSome (F.files folder.old) → (branches : ℕ) → IsPlan branches words.now
        → IsOk (problem_at (names_in words.now) (F.files folder.old))
        → IsEnded result ⊎ IsExcused result }
    ensures solves { IsSome (F.files folder.old) → (branches : ℕ) → IsPlan branches words.now
        → IsEnough branches (names_in words.now) (F.files folder.old)
        → (result ≡ 0) ⊎ (result ≡ 10) ⊎ IsExcused result }

    // `make` leaves exactly the two texts of the generated case, which are read as it, and says its line; it fails
    // only by a write, by saying, or by want of memory.
    ensures case_written { result ≡ 0 → IsSome (F.files folder.old) → (number : ℕ) → IsMake number words.now
        → CaseWritten number (case_names_in words.now) (F.files folder.old) (F.files folder.new) }
    ensures case_reads { result ≡ 0 → IsSome (F.files folder.old) → (number : ℕ) → IsMake number words.now
        → HasCase number (case_names_in words.now) (F.files folder.new) }
    ensures case_said { result ≡ 0 → (number : ℕ) → IsMake number words.now
        → O.said out.new ≡ and_said (O.said out.old) (case_line number) }
    ensures makes { IsSome (F.files folder.old) → (number : ℕ) → IsMake number words.now
        → (result ≡ 0) ⊎ (result ≡ 3) ⊎ (result ≡ 6) ⊎ (result ≡ 7) }

    // `make` without files ends as the plan for the case does, within 100000 branches, and says its line; it fails only
    // by saying, or by want of memory.
    ensures case_planned { IsEnded result → (number : ℕ) → IsPlanCase number words.now
        → SaysAnswer result (O.said out.old) (O.said out.new) (IsCasePlan number) }
    ensures case_plans { IsSome (F.files folder.old) → (number : ℕ) → IsPlanCase number words.now
        → IsEnded result ⊎ (result ≡ 6) ⊎ (result ≡ 7) }
{
    status_of(rt, alloc, words, folder, out, gate)
}
