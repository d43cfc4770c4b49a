//! The statistics of a canvas, with its warnings.

use crate::answer::Answer;
use crate::refusal::Refusal;
use crate::reporting::{FAILED, Format, OutputOptions};
use crate::warnings::Warnings;
use canvas_envelope::Letter;
use canvas_rewrite::Plan;
use canvas_task::Memory;
use canvas_values::Depths;
use std::alloc::{AllocError, Global};
use std::fmt;

/// The size of a canvas's run.
#[derive(Clone, Copy)]
pub struct Figures {
    tasks: u32,
    groups: u32,
    depths: Depths,
    messages: usize,
    bytes: u64,
}

impl fmt::Display for Figures {
    fn fmt<W: fmt::Write>(&self, f: &mut fmt::Formatter<W>) -> fmt::Result {
        let Figures {
            tasks,
            groups,
            depths: Depths { nesting, reach },
            messages,
            bytes,
        } = *self;
        write!(
            f,
            "tasks {tasks}\ngroups and chords {groups}\nnesting {nesting}\nreach {reach}\n"
        )?;
        write!(f, "messages {messages}\nbytes of messages {bytes}\n")
    }
}

/// Returns how many bytes the texts of a message have. They are written for this, and dropped.
fn length_of(alloc: Global, message: &Letter) -> Result<u64, Memory> {
    let envelope = message.envelope(alloc)?;
    let mut bytes = 0u64;
    for text in [&envelope.properties, &envelope.headers, &envelope.body] {
        bytes = bytes.saturating_add(text.get().len() as u64);
    }
    Ok(bytes)
}

/// Returns how many bytes the texts of messages have.
fn bytes_of(alloc: Global, messages: &[Letter]) -> Result<u64, Memory> {
    let mut bytes = 0u64;
    for message in messages {
        bytes = bytes.saturating_add(length_of(alloc, message)?);
    }
    Ok(bytes)
}

impl Figures {
    /// Returns the statistics as a JSON object in a line.
    fn json_line(self, alloc: Global) -> Result<String, AllocError> {
        let Figures {
            tasks,
            groups,
            depths: Depths { nesting, reach },
            messages,
            bytes,
        } = self;
        format!(in alloc;
            "{{\"bytes_of_messages\":{bytes},\"groups_and_chords\":{groups},\"messages\":{messages},\"nesting\":{nesting},\"reach\":{reach},\"tasks\":{tasks}}}\n"
        )
    }

    /// Returns the statistics of a plan whose canvas has these depths, and whose run publishes
    /// these messages.
    pub fn of(
        alloc: Global,
        plan: &Plan,
        depths: Depths,
        messages: &[Letter],
    ) -> Result<Figures, Memory> {
        Ok(Figures {
            tasks: plan.tasks(),
            groups: plan.groups(),
            depths,
            messages: messages.len(),
            bytes: bytes_of(alloc, messages)?,
        })
    }

    /// Returns the answer for a canvas that is accepted, with its status.
    pub fn answer(
        self,
        alloc: Global,
        output: OutputOptions,
        warnings: &Warnings,
    ) -> Result<Answer, Refusal> {
        let out = check_text(alloc, self, warnings, output.form)?;
        let status = if output.fails && !warnings.is_empty() {
            FAILED
        } else {
            0
        };
        Ok(Answer::whole(out.into_bytes()).with_status(status))
    }
}

/// Returns some statistics, followed by the canvas's warnings.
fn check_text(
    alloc: Global,
    figures: Figures,
    warnings: &Warnings,
    form: Format,
) -> Result<String, AllocError> {
    if form == Format::Json {
        let mut out = figures.json_line(alloc)?;
        warnings.push_objects(&mut out)?;
        return Ok(out);
    }
    let mut out = format!(in alloc; "{figures}")?;
    warnings.push_lines(&mut out)?;
    Ok(out)
}
