//! The top call over an outside that never fails.
ghost use Rattle.std.specs.Prelude.{◌≡◌, ◌≢◌, ◌⊎◌, ℕ, IsNone, IsOk};
ghost use Rattle.pack_base.specs.SteadyFolder.{files_of};
ghost use Rattle.canpack_top.specs.Answer.{IsEnded, IsRefused};
ghost use Rattle.canpack_top.specs.Check.{Accepts, HasNoneLate, HasOnePlace, HasPassing, texts_at};
ghost use Rattle.canpack_top.specs.Command.{command_of, names_in};
ghost use Rattle.canpack_top.specs.Commands.{IsCheck, IsPlan, OfCommand};
ghost use Rattle.canpack_top.specs.Files.{problem_at};
ghost use Rattle.canpack_top.specs.Meaning.{Answer};
ghost use Rattle.canpack_top.specs.Plan.{IsPlanned};

use crate::top::canpack;
use pack_base::{Gate, NullSink, SteadyFolder};
use std::alloc::Global;
use std::thread::Threads;

/// `canpack` over files whose reads never fail and a sink that takes everything: the words and the files alone
/// decide the status, want of memory aside, and for `plan` a write fault.
pub fn canpack_steady<R: Threads + Sync, G: Gate + Sync>(
    rt: &R,
    alloc: Global,
    words: &[String],
    folder: &mut SteadyFolder,
    gate: &G,
) -> u8
    ensures no_fault { (result ≢ 2) × (result ≢ 7) }
    ensures usage { IsNone (command_of words.now) → result ≡ 1 }
    ensures refuses { OfCommand words.now (IsRefused (files_of folder.old)) → (result ≡ 4) ⊎ (result ≡ 6) }

    ensures no_write_fault { IsCheck words.now → result ≢ 3 }
    ensures accepts { IsCheck words.now → Accepts (names_in words.now) (files_of folder.old)
        → (result ≡ 0) ⊎ (result ≡ 6) }
    ensures rejects { IsCheck words.now → IsOk (texts_at (names_in words.now) (files_of folder.old))
        → ¬ Accepts (names_in words.now) (files_of folder.old) → (result ≡ 5) ⊎ (result ≡ 6) }
    ensures one_place { result ≡ 0 → IsCheck words.now
        → HasOnePlace (names_in words.now) (files_of folder.old) }
    ensures passes { result ≡ 0 → IsCheck words.now → HasPassing (names_in words.now) (files_of folder.old) }
    ensures never_late { result ≡ 0 → IsCheck words.now
        → HasNoneLate (names_in words.now) (files_of folder.old) }
    ensures files { IsCheck words.now → files_of folder.new ≡ files_of folder.old }

    // `plan` says that it ended only where both files are written.
    ensures planned { IsEnded result → (branches : ℕ) → IsPlan branches words.now
        → (answer : Answer) × IsPlanned (names_in words.now) branches
        (files_of folder.old) (files_of folder.new) answer }
    ensures plans { (branches : ℕ) → IsPlan branches words.now
        → IsOk (problem_at (names_in words.now) (files_of folder.old))
        → IsEnded result ⊎ (result ≡ 3) ⊎ (result ≡ 6) }
{
    canpack(rt, alloc, words, folder, &mut NullSink, gate)
}
