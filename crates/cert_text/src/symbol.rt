//! What is still to come in a certificate.

/// A piece of a certificate that is still to come.
#[derive(Clone, Copy, Debug, PartialEq, Eq)]
pub(crate) enum Symbol {
    /// The first line.
    First,
    /// The line of the kind, and all that follows.
    FromKind,
    /// Lines of frames, and the end.
    Frames,
    /// Lines of frames, lemmas, the main tree, and the end.
    Parts,
    /// Lemmas, the main tree, and the end.
    Lemmas,
    /// A tree below so many inner nodes; whether it may have marks.
    TreeAt(bool, u32),
    /// A line of evidence.
    Against,
    /// The end of a marked tree, which stands below so many inner nodes.
    Join(u32),
    /// The end.
    End,
}
