//! Why a text is refused.

/// A file's part in a command.
#[derive(Clone, Copy, Debug, PartialEq, Eq)]
pub enum Role {
    Network,
    Signals,
    Matrix,
    Cert,
}

/// Why a command's text is refused.
#[derive(Clone, Copy, Debug, PartialEq, Eq)]
pub enum Refusal {
    /// This file has more bytes than it may have.
    TooLarge(Role),
    /// NETWORK is no JSON.
    NotJson,
    /// The least member of NETWORK at fault: 0 its value is no object, 1 to 5 a member by its number, 6 a further one.
    BadMember(u8),
    /// The first record of this file isn't its header.
    BadHeader(Role),
    /// The first row of this file that fails, counted from 1 for the header, and its least column that breaks its
    /// rule, counted from 1, or 0 for the count of fields.
    BadRow { role: Role, row: u64, column: u8 },
    /// SIGNALS has more than 2048 signals.
    TooManySignals,
    /// SIGNALS has no signal.
    NoSignals,
    /// The first row of SIGNALS whose name an earlier row has.
    TwiceNamed(u32),
    /// The first row of SIGNALS whose I-PDU an earlier row of another sender has.
    PduSenders(u32),
    /// The first I-PDU, by its first row, whose signals have more than 512 bits together.
    PduTooLarge(u32),
    /// There are more than 128 items.
    TooManyItems,
    /// The least common multiple of the periods is above 10^15 ticks.
    PeriodsMixed,
    /// The first line of CERT, counted from 1, that can't stand after the lines before it, or the line where bytes
    /// follow the line `end`.
    BadLine(u64),
    /// Each line of CERT can stand, but the line `end` is missing.
    Cut,
}
