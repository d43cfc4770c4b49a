//! A registry of tasks (Celery: `app.tasks`).

ghost use Rattle.std.specs.Prelude.{◌≡◌, ◌++◌, ◌∷◌, [], Some, None, IfOk, IfErr, unwrap_or};
ghost use Rattle.std.specs.Str.{bytes_eq};
ghost use Rattle.canvas_task.specs.Apply.{outcome};
ghost use Rattle.canvas_task.specs.Entries.{named};
ghost use Rattle.canvas_task.specs.Name.{name_ok};
ghost use Rattle.canvas_task.specs.Tasks.{tasks_in, named_task, behaviour_of, has_name, fault_of};
ghost use Rattle.canvas_task.specs.declared.add_fault.AddFault.TheVariants.{Memory};

use crate::{AddFault, Arg, Fault, Kind, Outcome, Task, Tasks, name_ok};
use std::alloc::Global;
use std::collections::BTreeMap;

/// A boxed task, as a registry holds it.
pub type BoxedTask = Box<dyn Task + Send + Sync>;

/// Tasks by name. Threads may share a registry.
///
/// Fill it in the function that owns it, with `new` and `add` or at once with `registry_of!`. A
/// function that boxes a task and hands out the registry with it, in its result or under a `&mut`,
/// would hide from its caller what the task means, and the gate refuses that.
#[derive(Drop)]
pub struct Registry {
    tasks: Vec<BoxedTask>,
}

/// A task that was not added, and why. It is no `Error`, since it returns the object; `cause` is
/// one.
#[derive(Drop)]
pub struct NotAdded {
    pub cause: AddFault,
    pub task: BoxedTask,
}

fn is_called(task: &BoxedTask, name: &str) -> bool
    ensures { result ≡ bytes_eq (called task.now) name.now }
{
    task.name() == name
}

fn has_good_name(task: &BoxedTask) -> bool
    ensures { result ≡ name_ok (called task.now) }
{
    name_ok(task.name())
}

/// Calls a task and returns the outcome.
fn outcome_of(task: &BoxedTask, args: &[Arg], kwargs: &BTreeMap<String, Arg>) -> Outcome
    ensures { result ≡ outcome (answers task.now args.now (named kwargs.now.entries)) }
{
    Outcome::of(task.call(args, kwargs))
}

impl Registry {
    /// Makes an empty registry.
    pub fn new(alloc: Global) -> Registry
        ensures { tasks_in called answers result ≡ [] }
    {
        Registry {
            tasks: Vec::new(alloc),
        }
    }

    fn has(&self, name: &str) -> bool
        ensures { result ≡ has_name name.now (tasks_in called answers self.now) }
    {
        for task in &self.tasks {
            if is_called(task, name) {
                return true;
            }
        }
        false
    }

    /// Adds a task, unless its name is not allowed or already taken. If it fails, it returns the
    /// task and leaves the registry unchanged.
    pub fn add(&mut self, task: BoxedTask) -> Result<(), NotAdded>
        ensures added { IfOk result (λ _.
            tasks_in called answers self.new
            ≡ tasks_in called answers self.old ++ named_task called answers task ∷ []) }
        ensures may_be { IfOk result (λ _.
            fault_of (called task) (tasks_in called answers self.old) ≡ None) }
        ensures given_back { IfErr result (λ e. e.task ≡ task) }
        ensures unchanged { IfErr result (λ _.
            tasks_in called answers self.new ≡ tasks_in called answers self.old) }
        ensures cause { IfErr result (λ e.
            e.cause ≡ unwrap_or (fault_of (called task) (tasks_in called answers self.old)) Memory) }
    {
        if !has_good_name(&task) {
            return Err(NotAdded {
                cause: AddFault::BadName,
                task,
            });
        }
        if self.has(task.name()) {
            return Err(NotAdded {
                cause: AddFault::Doubled,
                task,
            });
        }
        match self.tasks.push(task) {
            Ok(()) => Ok(()),
            Err(refused) => Err(NotAdded {
                cause: AddFault::Memory,
                task: refused.value,
            }),
        }
    }

    /// Calls the task of a name and returns the outcome: `NotRegistered` if there is none, and an
    /// overflow if the task's number is out of range. Allocates nothing.
    pub fn apply(&self, name: &str, args: &[Arg], kwargs: &BTreeMap<String, Arg>) -> Outcome
        ensures { result
            ≡ behaviour_of (tasks_in called answers self.now)
            name.now args.now (named kwargs.now.entries) }
    {
        for task in &self.tasks {
            if is_called(task, name) {
                return outcome_of(task, args, kwargs);
            }
        }
        Outcome::Failure(Fault::Plain(Kind::NotRegistered))
    }
}

impl Tasks for Registry {
    ghost use Rattle.canvas_task.specs.Tasks.{tasks_in, behaviour_of};
    ghost use Rattle.canvas_task.specs.BehaviourInRange.{behaviour_in_range};

    ghost behaviour = { λ r. behaviour_of (tasks_in (λ b. (Task-box b).called b.value) (λ b. (Task-box b).answers b.value) r) };

    fn apply(&self, name: &str, args: &[Arg], kwargs: &BTreeMap<String, Arg>) -> Outcome {
        self.apply(name, args, kwargs)
    }

    ghost in_range = { λ r. behaviour_in_range _ };
}

/// Makes a registry of the given tasks, as a `Result<Registry, AddFault>`: `registry_of!(alloc;
/// Add, Mul, Sub)?`. A task that is refused is dropped.
///
/// It is a macro, so that the boxes are made in the function that has the registry: a function that
/// makes them and hands them out hides what they mean.
#[macro_export]
macro_rules! registry_of {
    (@ $registry:ident $alloc:ident) => { Ok($registry) };
    (@ $registry:ident $alloc:ident $task:expr $(, $rest:expr)*) => {
        match Box::new($alloc, $task) {
            Ok(task) => match $registry.add(task) {
                Ok(()) => $crate::registry_of!(@ $registry $alloc $($rest),*),
                Err(refused) => Err($crate::AddFault::from(refused)),
            },
            Err(refused) => Err($crate::AddFault::from(refused)),
        }
    };
    ($alloc:expr; $($task:expr),*) => {{
        let alloc = $alloc;
        let mut registry = $crate::Registry::new(alloc);
        $crate::registry_of!(@ registry alloc $($task),*)
    }};
}
