ghost use Rattle.std.specs.Prelude.{◌≡◌, false, IfOk, IsTrue};
ghost use Rattle.std.specs.Option.{option_map};
ghost use Rattle.asio_command.specs.Session.{HasOneTrace, HasTwoTraces, IsAnswerOn, IsSession, session_trace};
ghost use Rattle.asio_command.specs.Answer.{IsAnswer};

use crate::answer::{Answer, answer_on};
use crate::names::Names;
use crate::parts::{is_parted, parts_of};
use crate::show::explained_fault;
use asio_types::NoMemory;
use fault_reports::{Fault, FileText, TracePart, trace_fault};
use std::alloc::Global;
use text_places::{ScriptParts, script_parts_of};

/// A script and the trace that was made of it: two files, or one that has both.
#[derive(Clone, Copy)]
pub struct SessionFiles<'t> {
    /// The file with the script, and the trace behind it where it stands there.
    pub script: FileText<'t>,
    /// The file with the trace.
    pub trace: Option<FileText<'t>>,
}

/// The parts of a session's files.
#[derive(Clone, Copy)]
pub(crate) struct SessionParts<'t> {
    /// The file with the script.
    pub(crate) file: FileText<'t>,
    pub(crate) script: ScriptParts<'t>,
    pub(crate) trace: Option<TracePart<'t>>,
}

/// The trace of a session: that of the file with the trace, or what stands behind the script.
fn trace_part<'t>(files: SessionFiles<'t>, own: Option<&'t [u8]>) -> Option<TracePart<'t>>
    ensures { option_map (λ part. part.text.now) result
        ≡ session_trace (option_map (λ file. file.text.now) files.entry.trace)
        (option_map (λ text. text.now) own.entry) }
{
    match (files.trace, own) {
        (Some(file), _) => Some(TracePart {
            file,
            begin: 0,
            text: file.text,
        }),
        (None, Some(text)) => Some(TracePart {
            file: files.script,
            begin: files.script.text.len().saturating_sub(text.len()),
            text,
        }),
        (None, None) => None,
    }
}

impl<'t> SessionFiles<'t> {
    /// Whether there are two traces, so that nobody knows which one is meant.
    pub(crate) fn has_two_traces(&self) -> bool
        ensures two { IsTrue result → HasTwoTraces self.now.script.text.now
            (option_map (λ file. file.text.now) self.now.trace) }
        ensures one { result ≡ false → HasOneTrace self.now.script.text.now
            (option_map (λ file. file.text.now) self.now.trace) }
    {
        match self.trace {
            Some(_) => is_parted(self.script.text),
            None => false,
        }
    }

    /// Their parts.
    pub(crate) fn parts(&self) -> SessionParts<'t>
        ensures { IsSession self.now.script.text.now
            (option_map (λ file. file.text.now) self.now.trace) result.script.rest.now
            (option_map (λ part. part.text.now) result.trace) }
    {
        let own = parts_of(self.script.text);
        SessionParts {
            file: self.script,
            script: script_parts_of(own.script),
            trace: trace_part(*self, own.trace),
        }
    }

    /// What is to be said of them: what the readers and the checker say of the script, behind the
    /// comments at its head, and of the trace, if there is one.
    pub fn answer(&self, alloc: Global, bytes_told: bool) -> Result<Answer, NoMemory>
        ensures { IfOk result (IsAnswerOn self.now.script.text.now
            (option_map (λ file. file.text.now) self.now.trace) bytes_told) }
    {
        self.parts().answer(alloc, bytes_told)
    }
}

impl<'t> SessionParts<'t> {
    /// The text of the trace, if there is one.
    pub(crate) fn trace_text(&self) -> Option<&'t [u8]>
        ensures { option_map (λ text. text.now) result
            ≡ option_map (λ part. part.text.now) self.now.trace }
    {
        match self.trace {
            Some(part) => Some(part.text),
            None => None,
        }
    }

    /// The text of the trace; nothing where there is none.
    pub(crate) fn trace_bytes(&self) -> &'t [u8] {
        self.trace_text().unwrap_or(&[])
    }

    /// The names that the head of the script gives.
    pub(crate) fn names(&self, alloc: Global) -> Result<Names<'t>, NoMemory> {
        Names::of_head(alloc, self.script.head)
    }

    /// What is to be said of them.
    pub(crate) fn answer(&self, alloc: Global, bytes_told: bool) -> Result<Answer, NoMemory>
        ensures { IfOk result (IsAnswer self.now.script.rest.now
            (option_map (λ part. part.text.now) self.now.trace) bytes_told) }
    {
        answer_on(alloc, self.script.rest, self.trace_text(), bytes_told)
    }

    /// The fault that an answer names, if there is one.
    pub(crate) fn fault(
        &self,
        alloc: Global,
        answer: Answer,
    ) -> Result<Option<Fault<'t>>, NoMemory> {
        match (answer, self.trace) {
            (Answer::Refused(refusal), _) => Ok(Some(explained_fault(
                alloc,
                self.file,
                self.script,
                refusal,
            )?)),
            (Answer::BadTrace(line), Some(part)) => Ok(Some(trace_fault(alloc, part, line))),
            _ => Ok(None),
        }
    }
}
