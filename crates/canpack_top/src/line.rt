//! The lines that the program says.
ghost use Rattle.std.specs.Prelude.{◌≡◌, IfOk, string_bytes};
ghost use Rattle.canpack_top.specs.declared.refusal.Role.TheVariants as role;
ghost use Rattle.canpack_top.specs.Line.{column_name, refused_line, role_name, usage_line};

use crate::refusal::{Refusal, Role};
use pack_model::Memory;
use std::alloc::{AllocError, Global};

fn role_name(role: Role) -> &'static str
    ensures { result.now ≡ role_name role }
{
    match role {
        Role::Network => "NETWORK",
        Role::Signals => "SIGNALS",
        Role::Matrix => "MATRIX",
        Role::Cert => "CERT",
    }
}

fn signals_column(column: u8) -> &'static str
    ensures { result.now ≡ column_name role.Signals column }
{
    match column {
        0 => "count",
        1 => "signal",
        2 => "sender",
        3 => "pdu",
        4 => "bits",
        5 => "period_us",
        6 => "deadline_us",
        7 => "jitter_us",
        _ => "",
    }
}

fn matrix_column(column: u8) -> &'static str
    ensures { result.now ≡ column_name role.Matrix column }
{
    match column {
        0 => "count",
        1 => "id",
        2 => "sender",
        3 => "size",
        4 => "ticks",
        5 => "header",
        6 => "pdu",
        7 => "at",
        8 => "signal",
        9 => "start",
        10 => "bits",
        _ => "",
    }
}

/// The name of a column, counted from 1, or `count` for 0; a column that the file doesn't have has the empty name.
fn column_name(role: Role, column: u8) -> &'static str
    ensures { result.now ≡ column_name role column }
{
    match role {
        Role::Signals => signals_column(column),
        Role::Matrix => matrix_column(column),
        Role::Network | Role::Cert => "",
    }
}

fn refused_text(alloc: Global, refusal: Refusal) -> Result<String, AllocError>
    ensures { IfOk result (λ text. string_bytes text ≡ refused_line refusal) }
{
    match refusal {
        Refusal::TooLarge(role) => { format!(in alloc; "refused {} too large\n", role_name(role)) }
        Refusal::NotJson => format!(in alloc; "refused NETWORK not json\n"),
        Refusal::BadMember(member) => format!(in alloc; "refused NETWORK member {member}\n"),
        Refusal::BadHeader(role) => format!(in alloc; "refused {} header\n", role_name(role)),
        Refusal::BadRow { role, row, column } => format!(in alloc;
            "refused {} row {row} column {}\n",
            role_name(role),
            column_name(role, column)
        ),
        Refusal::TooManySignals => format!(in alloc; "refused SIGNALS too many signals\n"),
        Refusal::NoSignals => format!(in alloc; "refused SIGNALS no signals\n"),
        Refusal::TwiceNamed(row) => format!(in alloc; "refused SIGNALS row {row} named twice\n"),
        Refusal::PduSenders(row) => {
            format!(in alloc; "refused SIGNALS row {row} pdu of another sender\n")
        }
        Refusal::PduTooLarge(id) => format!(in alloc; "refused SIGNALS pdu {id} too large\n"),
        Refusal::TooManyItems => format!(in alloc; "refused SIGNALS too many items\n"),
        Refusal::PeriodsMixed => format!(in alloc; "refused SIGNALS periods mixed\n"),
        Refusal::BadLine(line) => format!(in alloc; "refused CERT line {line}\n"),
        Refusal::Cut => format!(in alloc; "refused CERT cut\n"),
    }
}

/// The line that says that a text was refused, and why.
pub fn refused_line(alloc: Global, refusal: Refusal) -> Result<Vec<u8>, Memory>
    ensures { IfOk result (λ line. line.items ≡ refused_line refusal) }
{
    Ok(refused_text(alloc, refusal)?.into_bytes())
}

/// How the program is used.
pub fn usage_line() -> &'static [u8]
    ensures { result.now ≡ usage_line }
{
    b"usage: plan NETWORK SIGNALS MATRIX CERT BRANCHES WORKERS | check NETWORK SIGNALS MATRIX CERT WORKERS | make NUMBER [NETWORK SIGNALS]\n"
}
