//! The words of a command.
ghost use Rattle.std.specs.Prelude.{◌≡◌, ◌≤◌, None, Some, IfSome, length, true, false};
ghost use Rattle.canpack_top.specs.Command.{
  HasNames,
  are_case_names,
  are_names,
  case_names_in,
  case_names_of,
  check_of,
  command_of,
  make_of,
  names_in,
  names_of,
  plan_case_of,
  plan_of,
};

use csv_table::decimal_in;

/// The four files that the words name.
#[derive(Clone, Copy, Debug)]
pub struct Names<'a> {
    pub network: &'a str,
    pub signals: &'a str,
    pub matrix: &'a str,
    pub cert: &'a str,
}

/// The two files of a generated case that the words name.
#[derive(Clone, Copy, Debug)]
pub struct CaseNames<'a> {
    pub network: &'a str,
    pub signals: &'a str,
}

/// What the words ask for, beside the files that they name.
#[derive(Clone, Copy, Debug, PartialEq, Eq)]
pub enum Command {
    /// Checks a certificate of a matrix, by so many workers, 1 to 64.
    CheckFiles { workers: u32 },
    /// Plans a matrix within so many branches, 1 to 1000000, by so many workers: 1 so far.
    PlanFiles { branches: u64, workers: u32 },
    /// Writes the generated case of this number, 0 to 1000000.
    MakeFiles { number: u32 },
    /// Plans the generated case of this number, 0 to 1000000, in memory.
    PlanCase { number: u32 },
}

/// Whether no name is empty and no two are equal.
fn are_names(names: Names<'_>) -> bool
    ensures { result ≡ are_names (names_of names.entry) }
{
    let Names {
        network,
        signals,
        matrix,
        cert,
    } = names;
    !network.is_empty()
        && !signals.is_empty()
        && !matrix.is_empty()
        && !cert.is_empty()
        && network != signals
        && network != matrix
        && network != cert
        && signals != matrix
        && signals != cert
        && matrix != cert
}

/// The four files in the second to the fifth word.
pub fn names_in(words: &[String]) -> Names<'_>
    requires { 6 ≤ length words.now }
    ensures { names_of result ≡ names_in words.now }
{
    Names {
        network: words[1].as_str(),
        signals: words[2].as_str(),
        matrix: words[3].as_str(),
        cert: words[4].as_str(),
    }
}

/// Whether the second to the fifth word name four files.
fn has_names(words: &[String]) -> bool
    requires { 6 ≤ length words.now }
    ensures { result ≡ are_names (names_in words.now) }
{
    are_names(names_in(words))
}

/// Whether neither name is empty and they differ.
fn are_case_names(names: CaseNames<'_>) -> bool
    ensures { result ≡ are_case_names (case_names_of names.entry) }
{
    let CaseNames { network, signals } = names;
    !network.is_empty() && !signals.is_empty() && network != signals
}

/// The two files in the third and the fourth word.
pub fn case_names_in(words: &[String]) -> CaseNames<'_>
    requires { 4 ≤ length words.now }
    ensures { case_names_of result ≡ case_names_in words.now }
{
    CaseNames {
        network: words[2].as_str(),
        signals: words[3].as_str(),
    }
}

/// Whether the third and the fourth word name the two files of a case.
fn has_case_names(words: &[String]) -> bool
    requires { 4 ≤ length words.now }
    ensures { result ≡ are_case_names (case_names_in words.now) }
{
    are_case_names(case_names_in(words))
}

fn check_of(words: &[String]) -> Option<Command>
    requires { length words.now ≡ 6 }
    ensures exact { result ≡ check_of words.now }
    ensures names { IfSome result (HasNames words.now) }
{
    if words[0].as_str() != "check" || !has_names(words) {
        return None;
    }
    match decimal_in(words[5].as_bytes(), 1, 64) {
        Some(workers) => Some(Command::CheckFiles {
            workers: workers as u32,
        }),
        None => None,
    }
}

fn plan_of(words: &[String]) -> Option<Command>
    requires { length words.now ≡ 7 }
    ensures exact { result ≡ plan_of words.now }
    ensures names { IfSome result (HasNames words.now) }
{
    if words[0].as_str() != "plan" || words[6].as_str() != "1" || !has_names(words) {
        return None;
    }
    match decimal_in(words[5].as_bytes(), 1, 1_000_000) {
        Some(branches) => Some(Command::PlanFiles {
            branches,
            workers: 1,
        }),
        None => None,
    }
}

fn make_of(words: &[String]) -> Option<Command>
    requires { length words.now ≡ 4 }
    ensures exact { result ≡ make_of words.now }
    ensures names { IfSome result (HasNames words.now) }
{
    if words[0].as_str() != "make" || !has_case_names(words) {
        return None;
    }
    match decimal_in(words[1].as_bytes(), 0, 1_000_000) {
        Some(number) => Some(Command::MakeFiles {
            number: number as u32,
        }),
        None => None,
    }
}

fn plan_case_of(words: &[String]) -> Option<Command>
    requires { length words.now ≡ 2 }
    ensures exact { result ≡ plan_case_of words.now }
    ensures names { IfSome result (HasNames words.now) }
{
    if words[0].as_str() != "make" {
        return None;
    }
    match decimal_in(words[1].as_bytes(), 0, 1_000_000) {
        Some(number) => Some(Command::PlanCase {
            number: number as u32,
        }),
        None => None,
    }
}

/// The command of the words that follow the program's name, or `None` where they are the line of no command that
/// is built.
pub fn command_of(words: &[String]) -> Option<Command>
    ensures exact { result ≡ command_of words.now }
    ensures names { IfSome result (HasNames words.now) }
{
    match words.len() {
        2 => plan_case_of(words),
        4 => make_of(words),
        6 => check_of(words),
        7 => plan_of(words),
        _ => None,
    }
}
