//! The bytes of a file, read piece by piece.
ghost use Rattle.std.specs.Prelude.{◌≡◌, ◌<◌, ◌≤◌, ◌++◌, ◌∷◌, ◌+◌, ◌^◌, ℕ, List, IfOk, IfErr, None, length};
ghost use Rattle.cert_text.specs.Sources.{Drains, ReadOn, Reads, TakesHere, TakesLine, TakesUntil, broke, nothing_held, text_refusal};

use crate::cut::cut_at;
use crate::fault::FeedFault;
use pack_base::Folder;
use pack_model::Memory;
use std::alloc::Global;
use std::marker::Model;

/// How many bytes one read asks for.
const PIECE: usize = 65536;
/// With so many bytes a file is too large.
const TOO_LARGE: u64 = 1 << 63;

/// Where a reader stands in a file: the last piece read, the part of it that wasn't taken yet, and how many
/// bytes were read.
#[derive(Debug, Drop)]
pub(crate) struct Source {
    piece: Vec<u8>,
    from: usize,
    upto: usize,
    count: u64,
}

impl Model for Source {
    ghost use Rattle.std.specs.Prelude.{◌≡◌, ◌≤◌, ◌-◌, length, take, drop};
    ghost use Rattle.cert_text.specs.Sources.{Held};

    ghost Value = { Held };

    ghost view = { λ a. record {
      left = take (a.upto - a.from) (drop a.from a.piece.items);
      count = a.count;
    } };

    ghost invariant = { λ a. (a.from ≤ a.upto) × (a.upto ≤ 65536) × (length a.piece.items ≡ 65536) };
}

impl Source {
    /// The place before the first byte of a file.
    pub fn new(alloc: Global) -> Result<Source, Memory>
        ensures { IfOk result (λ s. s ≡ nothing_held) }
    {
        let piece = vec![in alloc; 0u8; PIECE]?;
        Ok(Source {
            piece,
            from: 0,
            upto: 0,
            count: 0,
        })
    }

    /// Reads the next piece in the place of what is left. False at the file's end.
    fn read_on<F: Folder>(&mut self, folder: &mut F, name: &str) -> Result<bool, FeedFault>
        requires { self.old.count < 2 ^ 63 }
        ensures reads { (more : List ℕ)
            × Reads F.files F.read_faults F.write_faults F.given name.now self.old.count folder.old folder.new
            (broke result) more
            × IfOk result (ReadOn (F.files folder.old) name.now self.old self.new more) }
        ensures fault { IfErr result (λ e. text_refusal e ≡ None) }
    {
        let Ok(read) = folder.read_at(name, self.count, &mut self.piece) else {
            return Err(FeedFault::ReadFault);
        };
        self.from = 0;
        self.upto = read;
        self.count += read as u64;
        if self.count >= TOO_LARGE {
            return Err(FeedFault::TooLarge);
        }
        Ok(read > 0)
    }

    // Puts what is left up to the next LF behind the line, or all where there is none.
    fn take_here(&mut self, line: &mut Vec<u8>) -> Result<bool, Memory>
        ensures { IfOk result (TakesHere self.old self.new line.old.items line.new.items) }
    {
        let left = &self.piece[self.from..self.upto];
        match cut_at(left, b'\n') {
            None => {
                line.extend_from_slice(left)?;
                self.from = self.upto;
                Ok(false)
            }
            Some((front, after)) => {
                line.extend_from_slice(front)?;
                self.from = self.upto - after.len();
                Ok(true)
            }
        }
    }

    /// Takes the next line, without its LF. False where no LF is left up to the file's end: the line is then
    /// what stands there.
    pub fn next_line<F: Folder>(
        &mut self,
        folder: &mut F,
        name: &str,
        line: &mut Vec<u8>,
    ) -> Result<bool, FeedFault>
        requires { self.old.count < 2 ^ 63 }
        ensures reads { (more : List ℕ)
            × Reads F.files F.read_faults F.write_faults F.given name.now self.old.count folder.old folder.new
            (broke result) more
            × IfOk result (TakesLine (F.files folder.old) name.now self.old self.new more line.new.items) }
        ensures fault { IfErr result (λ e. text_refusal e ≡ None) }
    {
        line.clear();
        while !self.take_here(line)? {
            if !self.read_on(folder, name)? {
                return Ok(false);
            }
        }
        Ok(true)
    }

    /// Passes over what is left up to the file's end. True where that was nothing.
    pub fn drain<F: Folder>(&mut self, folder: &mut F, name: &str) -> Result<bool, FeedFault>
        requires { self.old.count < 2 ^ 63 }
        ensures reads { (more : List ℕ)
            × Reads F.files F.read_faults F.write_faults F.given name.now self.old.count folder.old folder.new
            (broke result) more
            × IfOk result (Drains (F.files folder.old) name.now self.old self.new more) }
        ensures fault { IfErr result (λ e. text_refusal e ≡ None) }
    {
        let mut nothing = self.from == self.upto;
        while self.read_on(folder, name)? {
            nothing = false;
        }
        Ok(nothing)
    }

    /// The bytes that were read and not taken yet.
    #[inline(always)]
    pub fn ahead(&self) -> &[u8]
        ensures { result.now ≡ self.now.left }
    {
        &self.piece[self.from..self.upto]
    }

    /// Takes all up to these bytes, which are so many, and before which a line ends.
    #[inline(always)]
    pub fn take_until(&mut self, after: usize)
        requires { after ≤ length self.old.left }
        ensures { (line rest : List ℕ) → self.old.left ≡ line ++ 10 ∷ rest → after ≡ length rest
            → TakesUntil self.old self.new rest }
    {
        self.from = self.upto - after;
    }

    /// How many bytes were read and not taken yet.
    pub fn left(&self) -> usize
        ensures { result ≡ length self.now.left }
    {
        self.upto - self.from
    }
}
