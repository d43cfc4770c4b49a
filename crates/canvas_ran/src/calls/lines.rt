//! A message as the call that it asks for, a JSON object in a line.
ghost use Rattle.std.specs.Prelude.{◌≡◌, ◌∷◌, ◌++◌, [], IfOk, OnOk, codes, option_map, slice_get, string_bytes};
ghost use Rattle.std.specs.Str.{IsAscii};
ghost use Rattle.json.specs.Token.{begin_object, end_object};
ghost use Rattle.serde_json.specs.Data.{array, string};
ghost use Rattle.serde_json.specs.Written.{compact_text};
ghost use Rattle.canvas_envelope.specs.Content.{number_of};
ghost use Rattle.canvas_envelope.specs.EnvelopeContent.{content_said};
ghost use Rattle.canvas_envelope.specs.Wire.{parent_id, task_id};
ghost use Rattle.canvas_report.specs.JsonRows.{identifiers_wire};
ghost use Rattle.canvas_semantics.specs.Line.{names};
ghost use Rattle.canvas_values.specs.Writing.{args_wire};
ghost use Rattle.canvas_values.specs.steps.Tokens.{Appends, data_tokens, rest_tokens};
ghost use Rattle.canvas_envelope.specs.steps.Tokens.{named_tokens};
ghost use Rattle.canvas_ran.specs.Calls.{call_line, call_lines, call_wire, calls_text, header_wire, known_name, known_wire, names_wire};
ghost use Rattle.canvas_ran.specs.Fronts.{front_of, known_front};

use crate::calls::front::Front;
use canvas_codec::decode;
use canvas_envelope::{Letter, Message, ascii};
use canvas_rewrite::Plan;
use canvas_task::{Arg, ListOf, Memory, TaskNo, task_text};
use canvas_values::{write_args, write_kwargs};
use json::Writer;
use std::alloc::{AllocError, Global};

fn write_id(out: &mut Writer, id: &[u8]) -> Result<(), AllocError>
    requires { IsAscii id.now }
    ensures { Appends result out.old out.new (data_tokens (string id.now)) }
{
    out.string(ascii(id))
}

fn write_task_id(out: &mut Writer, task: TaskNo) -> Result<(), AllocError>
    ensures { Appends result out.old out.new (data_tokens (task_id task)) }
{
    write_id(out, &task_text(task))
}

/// Writes the rest of a list of identifiers.
fn write_tasks(out: &mut Writer, tasks: &[TaskNo]) -> Result<(), AllocError>
    ensures { Appends result out.old out.new (rest_tokens (identifiers_wire tasks.now)) }
{
    for task in tasks {
        write_task_id(out, *task)?;
    }
    out.end_array()
}

fn write_list(out: &mut Writer, tasks: &[TaskNo]) -> Result<(), AllocError>
    ensures { Appends result out.old out.new
        (data_tokens (array (identifiers_wire tasks.now))) }
{
    out.begin_array()?;
    write_tasks(out, tasks)
}

fn write_after(out: &mut Writer, front: &Front) -> Result<(), AllocError>
    ensures { Appends result out.old out.new
        (named_tokens (codes "after") (array (identifiers_wire front.now.after))) }
{
    out.key("after")?;
    write_list(out, front.after.get())
}

fn write_list_or_null(out: &mut Writer, tasks: &Option<ListOf<TaskNo>>) -> Result<(), AllocError>
    ensures { Appends result out.old out.new (data_tokens (header_wire tasks.now)) }
{
    match tasks {
        Some(tasks) => write_list(out, tasks.get()),
        None => out.null(),
    }
}

fn write_header_after(out: &mut Writer, front: &Front) -> Result<(), AllocError>
    ensures { Appends result out.old out.new
        (named_tokens (codes "header_after") (header_wire front.now.header_after)) }
{
    out.key("header_after")?;
    write_list_or_null(out, &front.header_after)
}

fn write_arguments(out: &mut Writer, args: &[Arg]) -> Result<(), AllocError>
    ensures { Appends result out.old out.new
        (named_tokens (codes "args") (array (args_wire args.now))) }
{
    out.key("args")?;
    out.begin_array()?;
    write_args(out, args)
}

fn write_name(out: &mut Writer, name: &str) -> Result<(), AllocError>
    ensures { Appends result out.old out.new (named_tokens (codes "name") (string name.now)) }
{
    out.key("name")?;
    out.string(name)
}

fn write_id_or_null(out: &mut Writer, task: Option<TaskNo>) -> Result<(), AllocError>
    ensures { Appends result out.old out.new (data_tokens (parent_id task)) }
{
    match task {
        Some(task) => write_task_id(out, task),
        None => out.null(),
    }
}

fn write_parent(out: &mut Writer, parent: Option<TaskNo>) -> Result<(), AllocError>
    ensures { Appends result out.old out.new
        (named_tokens (codes "parent_id") (parent_id parent)) }
{
    out.key("parent_id")?;
    write_id_or_null(out, parent)
}

fn write_own(out: &mut Writer, task: TaskNo) -> Result<(), AllocError>
    ensures { Appends result out.old out.new (named_tokens (codes "task_id") (task_id task)) }
{
    out.key("task_id")?;
    write_task_id(out, task)
}

/// Writes the members up to the keyword arguments.
fn write_front(out: &mut Writer, front: &Front, args: &[Arg]) -> Result<(), AllocError>
    ensures { Appends result out.old out.new (begin_object
        ∷ (named_tokens (codes "after") (array (identifiers_wire front.now.after))
        ++ (named_tokens (codes "args") (array (args_wire args.now))
        ++ named_tokens (codes "header_after") (header_wire front.now.header_after)))) }
{
    out.begin_object()?;
    write_after(out, front)?;
    write_arguments(out, args)?;
    write_header_after(out, front)
}

/// Writes the members after the keyword arguments, and the closing brace.
fn write_back(
    out: &mut Writer,
    name: &str,
    parent: Option<TaskNo>,
    task: TaskNo,
) -> Result<(), AllocError>
    ensures { Appends result out.old out.new (named_tokens (codes "name") (string name.now)
        ++ (named_tokens (codes "parent_id") (parent_id parent)
        ++ (named_tokens (codes "task_id") (task_id task) ++ end_object ∷ []))) }
{
    write_name(out, name)?;
    write_parent(out, parent)?;
    write_own(out, task)?;
    out.end_object()
}

fn write_call(
    out: &mut Writer,
    front: &Front,
    name: &str,
    message: &Message,
) -> Result<(), AllocError>
    ensures { Appends result out.old out.new
        (data_tokens (call_wire front.now name.now message.now)) }
{
    write_front(out, front, message.args.get())?;
    write_kwargs(out, message.kwargs.get())?;
    write_back(out, name, message.parent, message.task)
}

/// Returns the object of a message.
fn call_text(
    alloc: Global,
    front: &Front,
    name: &str,
    message: &Message,
) -> Result<Vec<u8>, AllocError>
    ensures { IfOk result
        (λ text. text.items ≡ compact_text (call_wire front.now name.now message.now)) }
{
    let mut out = Writer::new(Vec::new(alloc));
    write_call(&mut out, front, name, message)?;
    Ok(out.into_inner())
}

/// Reads the message of a letter. A run publishes none that can't be read, unless memory is
/// refused.
fn message_of(alloc: Global, letter: &Letter) -> Result<Message, Memory>
    ensures { IfOk result
        (λ m. content_said letter.now.headers letter.now.body ≡ m) }
{
    let envelope = letter.envelope(alloc)?;
    match decode(alloc, &envelope) {
        Ok(message) => Ok(message),
        Err(_) => Err(Memory),
    }
}

fn front_in(fronts: &[Front], place: usize) -> Option<&Front>
    ensures { option_map (λ f. f.now) result ≡ slice_get fronts.now place }
{
    fronts.get(place)
}

/// Returns the front of a task. A task that isn't in the list has no front.
fn front_at(fronts: &[Front], task: TaskNo) -> Option<&Front>
    ensures { known_front (option_map (λ f. f.now) result) ≡ front_of fronts.now task }
{
    front_in(fronts, task.get() as usize - 1)
}

/// Returns the object of the message of the task of this number, whose front is in the list.
fn known_text(
    alloc: Global,
    fronts: &[Front],
    task: TaskNo,
    name: &str,
    message: &Message,
) -> Result<Vec<u8>, AllocError>
    ensures { IfOk result (λ text. text.items ≡ compact_text
        (call_wire (front_of fronts.now task) name.now message.now)) }
{
    match front_at(fronts, task) {
        Some(front) => call_text(alloc, front, name, message),
        None => call_text(alloc, &Front::first(alloc), name, message),
    }
}

/// Returns the line of a message whose task has this name.
fn named_line(
    alloc: Global,
    fronts: &[Front],
    name: &str,
    message: &Message,
) -> Result<Vec<u8>, AllocError>
    ensures { IfOk result (λ line. line.items ≡ compact_text
        (call_wire (front_of fronts.now (number_of message.now.own)) name.now message.now)
        ++ codes "\n") }
{
    let mut line = known_text(alloc, fronts, message.task, name, message)?;
    line.push(b'\n')?;
    Ok(line)
}

fn line_of(
    alloc: Global,
    fronts: &[Front],
    shown: &Plan,
    message: &Message,
) -> Result<Vec<u8>, AllocError>
    ensures { IfOk result (λ line. line.items ≡ call_line fronts.now shown.now message.now) }
{
    match shown.name(message.task) {
        Some(name) => named_line(alloc, fronts, name, message),
        None => named_line(alloc, fronts, "", message),
    }
}

/// Appends a message's line.
fn push_line(
    text: &mut Vec<u8>,
    alloc: Global,
    fronts: &[Front],
    shown: &Plan,
    letter: &Letter,
) -> Result<(), Memory>
    ensures { OnOk result (text.new.items
        ≡ text.old.items ++ call_lines fronts.now shown.now (letter.now ∷ [])) }
{
    let message = message_of(alloc, letter)?;
    let line = line_of(alloc, fronts, shown, &message)?;
    Ok(text.extend_from_slice(&line)?)
}

/// Writes the name of a task of a plan.
fn write_known_name(out: &mut Writer, plan: &Plan, task: TaskNo) -> Result<(), AllocError>
    ensures { Appends result out.old out.new (data_tokens (string (known_name plan.now task))) }
{
    match plan.name(task) {
        Some(name) => out.string(name),
        None => out.string(""),
    }
}

/// Writes the rest of a list of the names of a plan's tasks.
fn write_names(out: &mut Writer, plan: &Plan) -> Result<(), AllocError>
    ensures { Appends result out.old out.new (rest_tokens (names_wire (names plan.now))) }
{
    for index in 0..plan.tasks() {
        write_known_name(out, plan, plan.task_at(index))?;
    }
    out.end_array()
}

/// Writes an object with the names of a plan's tasks.
fn write_known(out: &mut Writer, plan: &Plan) -> Result<(), AllocError>
    ensures { Appends result out.old out.new (data_tokens (known_wire plan.now)) }
{
    out.begin_object()?;
    out.key("names")?;
    out.begin_array()?;
    write_names(out, plan)?;
    out.end_object()
}

fn known_line(alloc: Global, plan: &Plan) -> Result<Vec<u8>, AllocError>
    ensures { IfOk result (λ line. line.items ≡ compact_text (known_wire plan.now)) }
{
    let mut out = Writer::new(Vec::new(alloc));
    write_known(&mut out, plan)?;
    Ok(out.into_inner())
}

/// Returns the lines of messages.
fn lines_of(
    alloc: Global,
    fronts: &[Front],
    shown: &Plan,
    messages: &[Letter],
) -> Result<Vec<u8>, Memory>
    ensures { IfOk result (λ text. text.items ≡ call_lines fronts.now shown.now messages.now) }
{
    let mut text = Vec::new(alloc);
    for letter in messages {
        push_line(&mut text, alloc, fronts, shown, letter)?;
    }
    Ok(text)
}

/// Returns the calls that messages ask for, a line each. Tasks have these fronts, in the order of
/// their numbers, and the names of a plan. The last line has all names.
pub fn calls_text(
    alloc: Global,
    fronts: &[Front],
    shown: &Plan,
    messages: &[Letter],
) -> Result<Vec<u8>, Memory>
    ensures { IfOk result (λ text. text.items ≡ calls_text fronts.now shown.now messages.now) }
{
    let mut text = lines_of(alloc, fronts, shown, messages)?;
    text.extend_from_slice(&known_line(alloc, shown)?)?;
    text.push(b'\n')?;
    Ok(text)
}
