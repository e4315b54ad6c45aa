//! The events of lines.
ghost use Rattle.std.specs.Prelude.{◌≡◌, ◌≤◌, IfOk, None, Some};
ghost use Rattle.cert_text.specs.Heard.{hear, heard_by, silent};
ghost use Rattle.cert_text.specs.declared.line.Line.TheVariants as line;

use crate::event::Event;
use crate::line::Line;
use crate::parts::Refuted;
use pack_model::Memory;
use response_test::Evidence;
use std::alloc::Global;
use std::mem;

/// The evidence of a fail leaf that hasn't ended.
#[derive(Debug, Drop)]
pub(crate) struct Hearing {
    lacking: u32,
    seen: Vec<(u32, Evidence)>,
}

impl Hearing {
    /// Nothing is heard.
    pub fn new(alloc: Global) -> Hearing
        ensures { heard_by result ≡ silent }
    {
        Hearing {
            lacking: 0,
            seen: Vec::new(alloc),
        }
    }

    /// A fail leaf begins, with so much evidence.
    pub fn begin(alloc: Global, count: u32) -> Result<Hearing, Memory>
        requires { 1 ≤ count }
        ensures { IfOk result (λ h. (heard_by h, None) ≡ hear silent (line.FailLine count)) }
    {
        Ok(Hearing {
            lacking: count - 1,
            seen: Vec::with_capacity(alloc, count as usize)?,
        })
    }

    // A fail leaf begins.
    fn fail(alloc: Global, count: u32) -> Result<(Hearing, Option<Event>), Memory>
        ensures { IfOk result (λ r. (heard_by r.0, r.1) ≡ hear silent (line.FailLine count)) }
    {
        if count == 0 {
            return Ok((
                Hearing::new(alloc),
                Some(Event::FailLeaf(Refuted::of(Vec::new(alloc)))),
            ));
        }
        Ok((Hearing::begin(alloc, count)?, None))
    }

    /// Hears a line of evidence, and gives the event that it ends.
    #[inline(always)]
    pub fn add(
        &mut self,
        alloc: Global,
        label: u32,
        evidence: Evidence,
    ) -> Result<Option<Event>, Memory>
        ensures { IfOk result (λ e. (heard_by self.new, e)
            ≡ hear (heard_by self.old) (line.AgainstLine label evidence)) }
    {
        self.seen.push((label, evidence))?;
        if self.lacking == 0 {
            let seen = mem::replace(&mut self.seen, Vec::new(alloc));
            return Ok(Some(Event::FailLeaf(Refuted::of(seen))));
        }
        self.lacking -= 1;
        Ok(None)
    }

    // A line of evidence.
    fn against(
        mut self,
        alloc: Global,
        label: u32,
        evidence: Evidence,
    ) -> Result<(Hearing, Option<Event>), Memory>
        ensures { IfOk result (λ r. (heard_by r.0, r.1) ≡ hear (heard_by self) (line.AgainstLine label evidence)) }
    {
        let event = self.add(alloc, label, evidence)?;
        Ok((self, event))
    }

    /// Hears one more line, and gives the event that it ends.
    pub fn hear(self, alloc: Global, line: Line) -> Result<(Hearing, Option<Event>), Memory>
        ensures { IfOk result (λ r. (heard_by r.0, r.1) ≡ hear (heard_by self) line) }
    {
        let event = match line {
            Line::FailLine(count) => return Hearing::fail(alloc, count),
            Line::AgainstLine(label, evidence) => return self.against(alloc, label, evidence),
            Line::FirstLine => None,
            Line::KindLine(kind) => Some(Event::Head(kind)),
            Line::FrameWords(frame) => Some(Event::FrameOf(frame)),
            Line::LemmaWords { sender, value } => Some(Event::LemmaOf { sender, value }),
            Line::MainLine => Some(Event::Main),
            Line::InnerLine(count) => Some(Event::Node(count)),
            Line::BoundLine => Some(Event::BoundLeaf),
            Line::OpenLine => Some(Event::OpenLeaf),
            Line::ShardLine => Some(Event::ShardMark),
            Line::JoinLine => Some(Event::JoinMark),
            Line::EndLine => Some(Event::Finish),
        };
        Ok((Hearing::new(alloc), event))
    }
}
