//! The warnings of `canvas check` for a canvas that is accepted.

use crate::source::{AtFault, Foreseen, Source};
use canvas_check::{Expected, Forecast, Input, Signature, Wrong, pointer_text, shown_name};
use canvas_report::quoted_json;
use canvas_sig::Canvas;
use canvas_task::{Memory, Tasks};
use std::alloc::{AllocError, Global};
use std::collections::BTreeMap;

/// The kind of a warning. Each but ignored options has at most one for each signature.
#[derive(Clone, Copy)]
enum Concern {
    NotRegistered,
    /// A name that no task has, if no answers were given.
    Unanswered,
    TypeError(Input),
    LeftPending,
    NestedChord,
    Unrolled,
    NoIdentifier,
    PendingBody,
    LostAlarms,
    Missed,
    Unstarted,
    Ignored,
}

impl Concern {
    /// Returns the name of the exception, or that of the row in docs/CELERY.md.
    fn name(self) -> &'static str {
        match self {
            Concern::NotRegistered | Concern::Unanswered => "NotRegistered",
            Concern::TypeError(_) => "TypeError",
            Concern::LeftPending => "failure-before-group",
            Concern::NestedChord => "failed-nested-chord",
            Concern::Unrolled => "group-of-one",
            Concern::NoIdentifier => "body-without-id",
            Concern::PendingBody => "pending-body",
            Concern::LostAlarms => "lost-alarm",
            Concern::Missed => "unregistered-alarm",
            Concern::Unstarted => "chord-keywords",
            Concern::Ignored => "ignored-options",
        }
    }

    fn note(self) -> &'static str {
        match self {
            Concern::NotRegistered => "no task has this name",
            Concern::Unanswered => "no task has this name; give answers by --task",
            Concern::TypeError(Input::Nothing) => "its call is a TypeError",
            Concern::TypeError(Input::Number) => {
                "its call is a TypeError behind the number that comes in"
            }
            Concern::TypeError(Input::Numbers) => {
                "its call is a TypeError behind the list that comes in"
            }
            Concern::TypeError(Input::Identifier) => {
                "its call is a TypeError behind the identifier that comes in"
            }
            Concern::LeftPending => "Celery leaves it pending where the task before it fails",
            Concern::NestedChord => {
                "Celery leaves the outer chord's body pending where a member of it fails"
            }
            Concern::Unrolled => "Celery puts its one member in its place",
            Concern::NoIdentifier => {
                "Celery leaves it pending where a member of the header fails, and may call error \
                 callbacks of another task"
            }
            Concern::PendingBody => "Celery leaves it pending where a member of the header fails",
            Concern::LostAlarms => {
                "Celery doesn't call its error callbacks where a member of the header fails"
            }
            Concern::Missed => {
                "Celery calls none of its error callbacks, and leaves what waits for it pending"
            }
            Concern::Unstarted => "Celery doesn't start a chord with other keyword arguments",
            Concern::Ignored => "is ignored",
        }
    }
}

/// Returns what is wrong with a parameter, for a text that begins with its name.
fn said_of(wrong: Wrong) -> &'static str {
    match wrong {
        Wrong::NoParameter => "is no parameter",
        Wrong::Missing => "is missing",
        Wrong::Twice => "is given twice",
        Wrong::OtherKind => "is of another kind",
    }
}

/// A warning.
#[derive(Drop)]
struct Warning {
    concern: Concern,
    note: String,
    /// The pointer to the first signature that has it.
    pointer: String,
    /// The name of its task.
    task: String,
    /// How many signatures have it.
    count: usize,
}

/// The warnings, in file order.
#[derive(Drop)]
pub struct Warnings {
    alloc: Global,
    /// Whether answers were given for some names.
    has_answers: bool,
    found: Vec<Warning>,
    /// The index of the warning of a name, or of an option.
    counted: BTreeMap<String, usize>,
}

impl Warnings {
    fn push(
        &mut self,
        signature: &Signature,
        concern: Concern,
        note: String,
    ) -> Result<(), AllocError> {
        let pointer = pointer_text(self.alloc, &signature.steps)?;
        let task = match &signature.name {
            Some(name) => name.clone()?,
            None => String::new(self.alloc),
        };
        self.found.push(Warning {
            concern,
            note,
            pointer,
            task,
            count: 1,
        })?;
        Ok(())
    }

    /// Appends a warning once for all signatures with a key. The others are counted.
    fn push_once(
        &mut self,
        signature: &Signature,
        key: String,
        concern: Concern,
        note: String,
    ) -> Result<(), AllocError> {
        if let Some(index) = self.counted.get(key.as_str()).copied() {
            self.count_one(index);
            return Ok(());
        }
        let next = self.found.len();
        drop(self.counted.insert(key, next)?);
        self.push(signature, concern, note)
    }

    fn count_one(&mut self, index: usize) {
        if let Some(warning) = self.found.get_mut(index) {
            warning.count = warning.count.saturating_add(1);
        }
    }

    fn push_concern(&mut self, signature: &Signature, concern: Concern) -> Result<(), AllocError> {
        let note = String::from_str(self.alloc, concern.note())?;
        self.push(signature, concern, note)
    }

    /// Appends a warning about a name, once for all signatures that have it.
    fn push_of_name(&mut self, signature: &Signature, concern: Concern) -> Result<(), AllocError> {
        let (name, task) = (concern.name(), signature.name.as_deref().unwrap_or(""));
        let key = format!(in self.alloc; "{name} {task}")?;
        let note = String::from_str(self.alloc, concern.note())?;
        self.push_once(signature, key, concern, note)
    }

    /// Appends a warning about a name that no task answers to. If no answers were given, all such
    /// names have one warning: the program can't know the user's tasks.
    fn push_unknown(
        &mut self,
        signature: &Signature,
        forecast: Forecast,
    ) -> Result<(), AllocError> {
        if !self.has_answers {
            let concern = Concern::Unanswered;
            let key = String::from_str(self.alloc, concern.name())?;
            let note = String::from_str(self.alloc, concern.note())?;
            return self.push_once(signature, key, concern, note);
        }
        self.push_of_name(signature, Concern::NotRegistered)?;
        if forecast.is_missed {
            self.push_of_name(signature, Concern::Missed)?;
        }
        Ok(())
    }

    /// Appends a warning about a call that is a TypeError, with the parameter at fault.
    fn push_type_error(
        &mut self,
        signature: &Signature,
        input: Input,
        blame: Option<&AtFault>,
    ) -> Result<(), AllocError> {
        let concern = Concern::TypeError(input);
        let Some(blame) = blame else {
            return self.push_concern(signature, concern);
        };
        let what = concern.note();
        let parameter = shown_name(self.alloc, &blame.parameter)?;
        let said = said_of(blame.wrong);
        let note = format!(in self.alloc; "{what}: {parameter} {said}")?;
        self.push(signature, concern, note)
    }

    fn push_expected(
        &mut self,
        signature: &Signature,
        foreseen: &Foreseen,
    ) -> Result<(), AllocError> {
        match foreseen.forecast.expected {
            Expected::Answer => Ok(()),
            Expected::Unknown => self.push_unknown(signature, foreseen.forecast),
            Expected::TypeError(input) => {
                self.push_type_error(signature, input, foreseen.blame.as_ref())
            }
        }
    }

    fn push_foreseen(
        &mut self,
        signature: &Signature,
        foreseen: &Foreseen,
    ) -> Result<(), AllocError> {
        let forecast = foreseen.forecast;
        self.push_expected(signature, foreseen)?;
        for &(holds, concern) in &[
            (forecast.is_left_pending, Concern::LeftPending),
            (forecast.is_nested_chord, Concern::NestedChord),
            (forecast.is_unrolled, Concern::Unrolled),
            (forecast.has_no_identifier, Concern::NoIdentifier),
            (forecast.is_pending_body, Concern::PendingBody),
            (forecast.loses_alarms, Concern::LostAlarms),
        ] {
            if holds {
                self.push_concern(signature, concern)?;
            }
        }
        Ok(())
    }

    /// Appends warnings about ignored options, each once for all signatures that have it.
    fn push_ignored(&mut self, signature: &Signature) -> Result<(), AllocError> {
        for option in &signature.ignored {
            let concern = Concern::Ignored;
            let said = concern.note();
            let name = shown_name(self.alloc, option)?;
            let note = format!(in self.alloc; "options.{name} {said}")?;
            let key = format!(in self.alloc; "option {option}")?;
            self.push_once(signature, key, concern, note)?;
        }
        Ok(())
    }

    /// Appends the warnings of signatures. There is a forecast for each but the groups of headers.
    fn push_all(
        &mut self,
        signatures: &[Signature],
        foreseen: &[Foreseen],
    ) -> Result<(), AllocError> {
        let mut left = foreseen.iter();
        for signature in signatures {
            if !signature.is_header_group
                && let Some(foreseen) = left.next()
            {
                self.push_foreseen(signature, foreseen)?;
            }
            if signature.is_unstarted {
                self.push_concern(signature, Concern::Unstarted)?;
            }
            self.push_ignored(signature)?;
        }
        Ok(())
    }

    /// Returns whether there are no warnings.
    pub fn is_empty(&self) -> bool {
        self.found.is_empty()
    }

    /// Appends each as a line, for a person.
    pub(crate) fn push_lines(&self, text: &mut String) -> Result<(), AllocError> {
        for warning in &self.found {
            push_line(text, warning)?;
        }
        Ok(())
    }

    /// Appends each as a JSON object in a line.
    pub(crate) fn push_objects(&self, text: &mut String) -> Result<(), AllocError> {
        for warning in &self.found {
            push_object(self.alloc, text, warning)?;
        }
        Ok(())
    }
}

fn push_line(text: &mut String, warning: &Warning) -> Result<(), AllocError> {
    let Warning {
        concern,
        note,
        pointer,
        task,
        count,
    } = warning;
    let name = concern.name();
    let at = if pointer.is_empty() {
        "the top"
    } else {
        pointer.as_str()
    };
    write!(text, "warning at {at} ({task})")?;
    if *count > 1 {
        write!(text, ", the first of {count}")?;
    }
    writeln!(text, ": {note} ({name})")?;
    Ok(())
}

fn push_object(alloc: Global, text: &mut String, warning: &Warning) -> Result<(), AllocError> {
    let note = quoted_json(alloc, &warning.note)?;
    let pointer = quoted_json(alloc, &warning.pointer)?;
    let task = quoted_json(alloc, &warning.task)?;
    let count = warning.count;
    let name = warning.concern.name();
    writeln!(
        text,
        "{{\"count\":{count},\"name\":\"{name}\",\"note\":{note},\"pointer\":{pointer},\"task\":{task}}}"
    )?;
    Ok(())
}

/// Returns the warnings of a canvas that a source's text spells, which has these signatures.
pub fn warnings_of<T: Tasks>(
    alloc: Global,
    source: &Source<'_, T>,
    canvas: &Canvas,
    signatures: &[Signature],
) -> Result<Warnings, Memory> {
    let foreseen = source.all_foreseen(alloc, canvas)?;
    let mut warnings = Warnings {
        alloc,
        has_answers: !source.setting.stubs.is_empty(),
        found: Vec::new(alloc),
        counted: BTreeMap::new(alloc),
    };
    warnings.push_all(signatures, &foreseen)?;
    Ok(warnings)
}
