//! The checking of a certificate.
ghost use Rattle.std.specs.Prelude.{OnOk, map};
ghost use Rattle.std.specs.Option.{option_copied, option_map};
ghost use Rattle.cert_text.specs.PlainTree.{plain_lemma, plain_of};
ghost use Rattle.bandwidth_bound.specs.Follows.{Holds};
ghost use Rattle.cert_check.specs.Accept.{IsFound, judged_of};
ghost use Rattle.cert_check.specs.Said.{lemmas_said, main_said, with_lines};
ghost use Rattle.cert_check.specs.Taken.{HasStored, StoresMore, load_in};

use crate::cert_walk::CertWalk;
use crate::fault::CheckFault;
use bandwidth_bound::Verdict;
use cert_text::{Cert, FrameLine, Lemma, Tree};
use matrix_text::Matrix;
use pack_model::Problem;
use std::alloc::Global;

/// Takes frame lines.
fn take_lines(walk: &mut CertWalk, problem: &Problem, lines: &[FrameLine])
    requires { HasStored problem.now walk.old }
    ensures { StoresMore problem.now walk.old walk.new (with_lines lines.now) }
{
    for line in lines {
        walk.take_line(problem, line);
    }
}

/// Takes lemmas with their trees.
fn take_lemmas(walk: &mut CertWalk, problem: &Problem, lemmas: &[Lemma])
    requires { HasStored problem.now walk.old }
    ensures { StoresMore problem.now walk.old walk.new (lemmas_said (map plain_lemma lemmas.now)) }
{
    for lemma in lemmas {
        walk.take_lemma(problem, lemma.sender, lemma.value);
        walk.take_tree(problem, &lemma.tree);
    }
}

/// Takes the main tree, if there is one.
fn take_main_tree(walk: &mut CertWalk, problem: &Problem, tree: Option<&Tree>)
    requires { HasStored problem.now walk.old }
    ensures { StoresMore problem.now walk.old walk.new
        (main_said (load_in walk.old.placing) (option_map plain_of (option_copied tree.entry))) }
{
    if let Some(tree) = tree {
        walk.take_main(problem);
        walk.take_tree(problem, tree);
    }
}

/// The verdict of a certificate on a problem's matrix, by the acceptance rule.
///
/// # Errors
///
/// The first part of the rule that fails: `RejectedMatrix`, `RejectedTiming` or `RejectedTree`; `Memory`
/// where memory runs out.
pub fn check_cert(
    alloc: Global,
    problem: &Problem,
    matrix: &Matrix,
    cert: &Cert,
) -> Result<Verdict, CheckFault>
    ensures found { IsFound problem.now matrix.now cert.now result }
    ensures holds { OnOk result (Holds (judged_of problem.now matrix.now cert.now)) }
{
    let mut walk = CertWalk::new(alloc, problem, matrix)?;
    walk.take_kind(cert.kind());
    take_lines(&mut walk, problem, cert.frames());
    take_lemmas(&mut walk, problem, cert.lemmas());
    take_main_tree(&mut walk, problem, cert.main_tree());
    walk.take_finish();
    walk.judge(None)
}
