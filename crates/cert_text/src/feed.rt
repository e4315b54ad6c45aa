//! Certificates in one pass: events, one after the other, of a file that is read piece by piece.
ghost use Rattle.std.specs.Prelude.{◌≡◌, ◌≤◌, ◌<◌, [], false, true, length, IsErrOf};
ghost use Rattle.cert_text.specs.Depths.{MayGoOn, bytes_ahead, depth_of, is_last};

use crate::against::{against_in, lacking_in};
use crate::event::Event;
use crate::fault::FeedFault;
use crate::hearing::Hearing;
use crate::judge::judge;
use crate::node::node_in;
use crate::position::Position;
use crate::source::Source;
use pack_base::Folder;
use pack_model::Memory;
use response_test::Evidence;
use std::alloc::Global;

/// Where a reader of a certificate stands that holds neither its text nor its tree: it reads a piece of the
/// file at a time, and gives what the lines say, event by event.
#[derive(Debug, Drop)]
pub struct CertFeed {
    alloc: Global,
    source: Source,
    line: Vec<u8>,
    position: Position,
    lines: u64,
    ended: bool,
    ghost may_go_on: { ended ≡ false → MayGoOn position source lines },
}

// Whether no event comes after this answer.
fn ends(answer: &Result<Event, FeedFault>) -> bool
    ensures { result ≡ is_last answer.now }
{
    matches!(answer, Ok(Event::Finish) | Err(_))
}

impl CertFeed {
    ghost use Rattle.std.specs.Prelude.{◌+◌, ℕ, List, Option, None, Some, Result, Ok, Err, IfOk, IfSome, ◌++◌};
    ghost use Rattle.pack_base.specs.Outside.{Later, SameFaults};
    ghost use Rattle.pack_base.specs.Counts.{Rose};
    ghost use Rattle.cert_text.specs.Depths.{IsWithin};
    ghost use Rattle.cert_text.specs.Heard.{heard_by};
    ghost use Rattle.cert_text.specs.Sources.{Reads, broke, cause, text_refusal};
    ghost use Rattle.cert_text.specs.Given.{Feeds, Given, HasGiven, IsAnswerOf};
    ghost use Rattle.cert_text.specs.declared.line.Line.TheVariants as line;
    ghost use Rattle.cert_text.specs.Judging.{BeginsHearing, Finishes, HearsEvent, JudgesHere};
    ghost use Rattle.cert_text.specs.Judging.{OneEvent, OneLine, RefusesBad};

    /// A feed before the first byte of a file.
    pub fn new(alloc: Global) -> Result<CertFeed, Memory>
        // It was given no bytes and no events.
        ensures given { IfOk result (λ feed. Given feed [] []) }
        ensures goes_on { IfOk result (λ feed. feed.ended ≡ false) }
    {
        let source = Source::new(alloc)?;
        let position = Position::new(alloc)?;
        Ok(CertFeed {
            alloc,
            source,
            line: Vec::new(alloc),
            position,
            lines: 0,
            ended: false,
        })
    }

    // The next line can't stand: all that follows it is passed over.
    fn bad_line<F: Folder>(&mut self, folder: &mut F, name: &str) -> FeedFault
        requires within { IsWithin self.old.source self.old.lines }
        requires closed { self.old.ended ≡ true }
        ensures bad { (more : List ℕ)
            × Reads F.files F.read_faults F.write_faults F.given name.now self.old.source.count
            folder.old folder.new (cause result) more
            × RefusesBad (F.files folder.old) name.now self.old.source.count self.old.lines more
            (text_refusal result) }
        ensures closed { self.new.ended ≡ true }
    {
        match self.source.drain(folder, name) {
            Ok(_) => FeedFault::BadLine(self.lines + 1),
            Err(fault) => fault,
        }
    }

    // Judges the next line.
    fn hear_line<F: Folder>(
        &mut self,
        folder: &mut F,
        name: &str,
        hearing: Hearing,
    ) -> Result<(Hearing, Option<Event>), FeedFault>
        requires within { IsWithin self.old.source self.old.lines }
        requires closed { self.old.ended ≡ true }
        ensures line { (more : List ℕ)
            × Reads F.files F.read_faults F.write_faults F.given name.now self.old.source.count
            folder.old folder.new (broke result) more
            × OneLine (F.files folder.old) name.now self.old self.new more (heard_by hearing) result }
        ensures closed { self.new.ended ≡ true }
    {
        if !self.source.next_line(folder, name, &mut self.line)? {
            return Err(FeedFault::Cut);
        }
        let Some(line) = judge(self.alloc, &mut self.position, &self.line)? else {
            return Err(self.bad_line(folder, name));
        };
        self.lines += 1;
        Ok(hearing.hear(self.alloc, line)?)
    }

    // The event of a line that tells a node whole, where that line stands in the piece of the file. None, and no
    // change, where it may be another line, or can't stand.
    #[inline(always)]
    fn hear_node(&mut self) -> Option<Event>
        requires within { IsWithin self.old.source self.old.lines }
        requires closed { self.old.ended ≡ true }
        ensures heard { IfSome result (λ e. HearsEvent self.old self.new [] e) }
        ensures kept { result ≡ None → self.new ≡ self.old }
        ensures closed { self.new.ended ≡ true }
    {
        let (node, after) = node_in(self.source.ahead())?;
        let after = after.len();
        if !self.position.take_node(node) {
            return None;
        }
        self.source.take_until(after);
        self.lines += 1;
        Some(node.event(self.alloc))
    }

    // The evidence of the next line, where that line stands in the piece of the file. None, and no change, where
    // it may be another line, or can't stand.
    #[inline(always)]
    fn take_evidence(&mut self) -> Option<(u32, Evidence)>
        requires within { IsWithin self.old.source self.old.lines }
        requires closed { self.old.ended ≡ true }
        ensures told { IfSome result (λ x. JudgesHere self.old self.new (line.AgainstLine x.0 x.1)) }
        ensures kept { result ≡ None → self.new ≡ self.old }
        ensures closed { self.new.ended ≡ true }
    {
        let (label, evidence, after) = against_in(self.alloc, self.source.ahead())?;
        let after = after.len();
        if !self.position.take_against() {
            return None;
        }
        self.source.take_until(after);
        self.lines += 1;
        Some((label, evidence))
    }

    // How much evidence the fail leaf has whose line comes next, where that line stands in the piece of the
    // file. None, and no change, where it may be another line, or can't stand.
    fn take_fail(&mut self) -> Option<u32>
        requires within { IsWithin self.old.source self.old.lines }
        requires closed { self.old.ended ≡ true }
        ensures told { IfSome result (λ n. (1 ≤ n) × JudgesHere self.old self.new (line.FailLine n)) }
        ensures kept { result ≡ None → self.new ≡ self.old }
        ensures closed { self.new.ended ≡ true }
    {
        let (count, after) = lacking_in(self.source.ahead())?;
        let after = after.len();
        if !self.position.take_fail(count) {
            return None;
        }
        self.source.take_until(after);
        self.lines += 1;
        Some(count)
    }

    // Hears the line of a fail leaf with evidence, if it stands next in the piece of the file.
    fn begin(&mut self) -> Result<Hearing, Memory>
        requires within { IsWithin self.old.source self.old.lines }
        requires closed { self.old.ended ≡ true }
        ensures begun { IfOk result (λ h. BeginsHearing self.old self.new (heard_by h)) }
        ensures closed { self.new.ended ≡ true }
    {
        match self.take_fail() {
            Some(count) => Hearing::begin(self.alloc, count),
            None => Ok(Hearing::new(self.alloc)),
        }
    }

    // Judges lines up to the next event.
    fn hear_lines<F: Folder>(&mut self, folder: &mut F, name: &str) -> Result<Event, FeedFault>
        requires within { IsWithin self.old.source self.old.lines }
        requires closed { self.old.ended ≡ true }
        ensures event { (more : List ℕ)
            × Reads F.files F.read_faults F.write_faults F.given name.now self.old.source.count
            folder.old folder.new (broke result) more
            × OneEvent (F.files folder.old) name.now self.old self.new more result }
        ensures closed { self.new.ended ≡ true }
    {
        let mut hearing = self.begin()?;
        loop {
            if let Some((label, evidence)) = self.take_evidence() {
                if let Some(event) = hearing.add(self.alloc, label, evidence)? {
                    return Ok(event);
                }
                continue;
            }
            let (heard, event) = self.hear_line(folder, name, hearing)?;
            if let Some(event) = event {
                return Ok(event);
            }
            hearing = heard;
        }
    }

    // The next event.
    #[inline(always)]
    fn hear_event<F: Folder>(&mut self, folder: &mut F, name: &str) -> Result<Event, FeedFault>
        requires within { IsWithin self.old.source self.old.lines }
        requires closed { self.old.ended ≡ true }
        ensures event { (more : List ℕ)
            × Reads F.files F.read_faults F.write_faults F.given name.now self.old.source.count
            folder.old folder.new (broke result) more
            × OneEvent (F.files folder.old) name.now self.old self.new more result }
        ensures closed { self.new.ended ≡ true }
    {
        if let Some(event) = self.hear_node() {
            return Ok(event);
        }
        self.hear_lines(folder, name)
    }

    // The certificate ends, if nothing follows.
    fn finish<F: Folder>(&mut self, folder: &mut F, name: &str) -> Result<Event, FeedFault>
        requires within { IsWithin self.old.source self.old.lines }
        requires closed { self.old.ended ≡ true }
        ensures finish { (more : List ℕ)
            × Reads F.files F.read_faults F.write_faults F.given name.now self.old.source.count
            folder.old folder.new (broke result) more
            × Finishes (F.files folder.old) name.now self.old self.new more result }
        ensures closed { self.new.ended ≡ true }
    {
        if self.source.drain(folder, name)? {
            Ok(Event::Finish)
        } else {
            Err(FeedFault::BadLine(self.lines + 1))
        }
    }

    // The next event, and at the last one whether the file ends.
    #[inline(always)]
    fn go_on<F: Folder>(&mut self, folder: &mut F, name: &str) -> Result<Event, FeedFault>
        requires goes_on { MayGoOn self.old.position self.old.source self.old.lines }
        requires closed { self.old.ended ≡ true }
        requires given { HasGiven self.old }
        ensures answer { (more : List ℕ)
            × Reads F.files F.read_faults F.write_faults F.given name.now self.old.source.count
            folder.old folder.new (broke result) more
            × ((bytes : List ℕ) (events : List Event) → Given self.old bytes events
            → IsAnswerOf (F.files folder.old) name.now self.new bytes more events result) }
        ensures goes_on { is_last result ≡ false → MayGoOn self.new.position self.new.source self.new.lines }
        ensures shrinks { is_last result ≡ false → bytes_ahead self.new.source < bytes_ahead self.old.source }
        ensures closed { self.new.ended ≡ true }
    {
        match self.hear_event(folder, name)? {
            Event::Finish => self.finish(folder, name),
            event => Ok(event),
        }
    }

    /// The next event of the file of this name. It reads on by pieces of at most 65536 bytes. After `Finish`
    /// and after each fault the feed has ended.
    ///
    /// # Errors
    ///
    /// `ReadFault` where a read failed; `TooLarge` where the file gave more than 2^63 - 1 bytes; `BadLine(n)`
    /// where line n, counted from 1, is the first that no certificate has after the lines before it, or where
    /// bytes follow the line `end` there; `Cut` where all lines can stand and `end` isn't among them;
    /// `Memory` where memory runs out. A bad line or a cut is answered only once the file was read to its end.
    pub fn next<F: Folder>(&mut self, folder: &mut F, name: &str) -> Result<Event, FeedFault>
        requires goes_on { self.old.ended ≡ false }
        requires given { HasGiven self.old }

        // What it answers, for all bytes and events that it was given.
        ensures answer { (bytes : List ℕ) (events : List Event) → Given self.old bytes events
            → Feeds F.files F.read_faults F.write_faults F.given name.now folder.old folder.new self.new
            bytes events result }
        ensures ended { self.new.ended ≡ is_last result }
        // A loop over events ends: each but the last leaves fewer bytes that may come.
        ensures shrinks { is_last result ≡ false → bytes_ahead self.new.source < bytes_ahead self.old.source }

        ensures files { F.files folder.new ≡ F.files folder.old }
        ensures later { Later F.read_faults F.write_faults F.given folder.old folder.new }
        ensures read_fault { IsErrOf result FeedFault.ReadFault
            → Rose (F.read_faults folder.old name.now) (F.read_faults folder.new name.now) }
        ensures quiet { (IsErrOf result FeedFault.ReadFault → ⊥)
            → SameFaults F.read_faults F.write_faults folder.old folder.new }
    {
        self.ended = true;
        let answer = self.go_on(folder, name);
        self.ended = ends(&answer);
        answer
    }

    /// True exactly after `Finish` and after a fault.
    pub fn ended(&self) -> bool
        ensures { result ≡ self.now.ended }
    {
        self.ended
    }

    /// How many inner nodes still lack subtrees, at most 128.
    pub fn depth(&self) -> usize
        ensures value { result ≡ depth_of self.now.position }
        ensures at_most { HasGiven self.now → result ≤ 128 }
    {
        self.position.depth()
    }

    /// How many bytes were read after the last line judged: below 65536 as long as the feed hasn't ended.
    pub fn unjudged(&self) -> usize
        ensures value { result ≡ length self.now.source.left }
        ensures few { self.now.ended ≡ false → result < 65536 }
    {
        self.source.left()
    }
}
