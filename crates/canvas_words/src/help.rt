//! What help says beside the commands: the notes below them, and a text for each topic.

/// The text below the commands and options.
pub(crate) const NOTES: &str = "\
Status:
  0  the answer is on standard output
  1  refused: the command line, the file, the canvas or the output; standard error says why
  2  memory ran out; standard output has the results that were stored, if memory was left for it
  3  with --fail: the canvas's result is a failure; with --strict: there is a warning

`canvas help COMMAND` lists a command's options. `canvas help TOPIC` explains a topic:
  reports  what the commands print for people
  turns    workers that take turns by a list, and redelivered messages
  tasks    the built-in tasks, and answers for tasks of your own
  json     output and refusals as JSON, and many canvases in one process
  celery   canvases that Celery writes, and the same canvas on Celery's own workers
  limits   how large a canvas may be, and why one is refused";

const REPORTS: &str = "\
A report has a line for each task, `ID NAME STATE VALUE`, in the order of the file: a task, its
links, its error callbacks, then what follows; a header before its body. Its last line is the
result. A canvas has the same report for any number of workers, and for any turns.

`run` puts two workers and more on threads, each on its own if the system makes one.

`run --explain` names tasks by their numbers, as #2, and says why a task was not called. A run that
ends early doesn't say which tasks were called.

`normal` prints the normal line, which means the same as the canvas: some tasks, then at most one
group or chord. A chain in a chain is flattened. A group or chord that something follows is a chord
whose body is all that follows.

`check` prints what a run of the canvas takes, and then the warnings. Each has the JSON pointer
(RFC 6901) to the first signature that it is about, and its kind: NotRegistered, no task has the
name; TypeError, the call is one for any input; ignored-options; and if Celery 5 does otherwise,
failure-before-group, failed-nested-chord, group-of-one, lost-alarm, body-without-id, pending-body,
unregistered-alarm and chord-keywords (docs/CELERY.md). For a refused canvas it prints the pointer
to the first signature that is refused, what was found there, and what is wanted.

`graph` prints a picture for Graphviz, as in `canvas graph FILE --run | dot -Tsvg -o canvas.svg`:
from left to right in time, groups and chords as frames, links and error callbacks dashed.

`page` prints an HTML page, as in `canvas page FILE > canvas.html`, which needs no other file and
contacts nothing. It shows what becomes of the canvas if a task fails, with the exception that
--failures says, and its runs by 1, 2 and 4 workers, step by step. If the canvas has more than 200
tasks or 65,536 bytes, it shows only what becomes of the canvas as it is.

`messages` prints the messages that workers would get, each with its body, headers and properties
as texts.
";

const TURNS: &str = "\
Under `turns` the workers take turns on one thread. At a turn a worker makes one step, such as to
take a message or to store an outcome. `--steps` prints each; its `ask` is publish, take, store,
part, read, ack, rest or redeliver. A list of turns is decimal numbers from 1 to that of `--workers`
(1 if it isn't given), separated by single commas, with no sign, space or leading zero, as 1,2,2.
Any other is refused (BadTurn). After the list the workers take turns from 1.

With `--again LIST` a worker has the message that it works on redelivered at the points of a list,
as 1:early,1:late: a task's number, a colon, and `early`, before the first store of the task's
message, or `late`, before the message is acknowledged. The first worker that comes to a point uses
up the entry. The report stays the same: a store of a message that was run before answers Again and
changes nothing, and standard error says how many did. The list is written like one of turns. It may
have a name instead of a number, for all tasks of that name; `all` is each task at both points. Any
other is refused (BadAgain).
";

const TASKS: &str = "\
The built-in tasks are tasks.add(x, y), tasks.mul(x, y), tasks.div(x, y), which rounds down,
tasks.ident(x), tasks.xsum(numbers), which adds up a list, and tasks.log_error(uuid), which gives
the number of the task with that identifier. An argument is a whole number from -2^60 to 2^60, a
list of such (numbers), or a text (uuid). The input is the first argument, unless the signature is
immutable. An argument of another kind, and one too many or too few, is a TypeError.

`--task NAME=WORD` says what a task of that name answers to any call. WORD is a whole number, or
`raise:CLASS`, an exception by its name in letters, digits and _ (but Retry, Ignore and Reject,
which are no failures), or a built-in task's word, which is its name without `tasks.`: with add it
answers as tasks.add does. The option may be given again, for another name. The name * means each
name that no task has. On `run`, `turns`, `graph` and `page` the name #3 means only the third task,
by any name.

`--tasks FILE` has more such answers, one a line. An empty line, and one that begins with #, says
nothing. If both name a task, `--task` decides.

Another word or name, and a name that is there twice, is refused (BadTask). So is a name that
`--task` says if no task of the canvas has it, unless it is *, a built-in task's, or given with
--each. A file may name other tasks.
";

const JSON: &str = "\
`run --json` and `turns --json` print a JSON object in a line for each task (due_to, name, ran,
result, status, task_id), and one for the canvas: result, status, and `ends`, the tasks whose
results the result is. With --again it also has `again`, how many stores answered Again. A failure's
result has exc_type and exc_message, as Celery stores it. If a task wasn't called, its `ran` is
false. If it failed all the same, due_to is the task whose exception it shows, or that its
ChordError names; else it is null. If a call of a built-in task is a TypeError, it has `parameter`:
the one at fault, or null if there are too many arguments. `collect`, and a run that ended early,
print neither ran nor due_to.

`run --failures=raise:CLASS` prints an object (canvas, fails, rows) for the canvas as it is, and
then one for each task, if only that task fails: its rows are those that differ. It runs nothing,
and evaluates each line.

`run --each` reads a canvas a line, runs as many at once as there are workers, and prints a JSON
object a line for each, in their order, before it reads more: canvas (the last line of `run --json`)
and rows (a list of the others), or what --json prints of one that is refused. With --null a canvas
ends with a NUL byte and not with its line. With --with-tasks it has lines before it, each as --task
takes them, and an empty line. They are only for this canvas, and come before --task and --tasks.

`check --json` prints an object for the statistics (bytes_of_messages, groups_and_chords, messages,
nesting, reach, tasks), and one for each warning (count, name, note, pointer, task).

`messages --calls` prints the call that each message asks for (after, args, header_after, kwargs,
name, parent_id, task_id), and then the names of all tasks. A message waits for the ends of the
tasks of after. If a header's completion publishes it, header_after has the tasks whose ends the
header waits for; else it is null.

With --json each command prints a refusal as an object on standard error: of a canvas with code,
name, note, pointer and task (those of the first signature that is refused, or null), and line and
column if it is no JSON; of anything else, such as a file that can't be read, with name and note.
";

const CELERY: &str = "\
`adapt` prints a canvas that runs here, from any that Celery writes. One that runs here already is
printed as it is. Else it makes short texts of arguments that are no whole numbers, texts or lists
of whole numbers; gives the links and error callbacks of chains, groups and chords to the tasks that
Celery gives them; puts the members of a group in a group into the outer one; makes groups of calls
of celery.map, celery.starmap and celery.chunks; takes out what Celery wrote into signatures that
were started; and replaces a chain or group that is a callback by its tasks. Standard error counts
each kind. `--rename '#3=NAME'` gives the third task of what is printed another name, by which an
answer tells it from those that have the same. The option may be given again, for another number. A
text of another kind, and a number that no task has, is refused (BadRename):
    canvas adapt order.json --rename '#3=late' | canvas run - --task '*=0' --task late=5

With --adapt a command first does what `adapt` does, without counting. But `export --adapt` says on
standard error how many arguments the workers get as texts. Then give `keys` and `collect` --adapt
too.

`export` prints the commands that start a canvas on Celery's own workers, with Redis as broker and
result backend, `keys` the keys under which these store its results, and `collect` its report, from
these results on standard input, one a line:
    canvas export FILE --run HEX22 | redis-cli --pipe
    canvas keys FILE --run HEX22 | xargs -r redis-cli --raw MGET | canvas collect FILE --run HEX22
A run's number has 22 lower-case hexadecimal digits, and any other is refused (BadRun). It is used
once. `collect --complete` gives tasks that a failure reaches their state, where Celery leaves them
pending. A result that is no whole number is shown as JSON, and an exception of another class by its
name. `graph FILE --results FILE --of HEX22` draws results from a file. `export` says on standard
error how many signatures have each option that it ignores, such as queue and countdown.

With `export --values VALUES` each argument that is a place, the text ~0, ~1 and so on, goes to the
workers as the item of that number of the JSON array in VALUES, of any kind. There a text that
begins with ~ and is no place of an item, also as a task's name, is refused as BadPlace, and
anything but such an array, or one of more than 1,048,576 bytes, as BadValue.

Results are refused by a name: BadCount (fewer or more than tasks), TooLarge (more than 67,108,864
bytes), and of a task's result NotJson, OtherTask, UnknownState, UnknownException (a failure that
names none).
";

const LIMITS: &str = "\
A run has 1 to 16 workers. A canvas has at most 1,048,576 bytes, 1,024 tasks, and 1,024 groups and
chords. A text that has more, or is no canvas, is refused by a line, `canvas: refused CODE NAME`:
   1 TooLarge          more than 1,048,576 bytes
   2 NotJson           no JSON text in UTF-8
   3 NotSignature      no object, or a task's name or `immutable` is none
   4 UnknownPrimitive  another subtask_type than null, chain, group and chord
   5 BadArgs           a member of the wrong form, or an argument of the wrong kind
   6 BadNumber         a number that isn't whole, or is past 2^60 on either side
   7 OnCanvas          arguments, links or callbacks on a chain, group or chord, or one of these
                       as a callback
   8 Frozen            options.chord is there
   9 EmptyChain        a chain with no tasks
  10 NestedGroup       a member of a group or header ends in a group
  11 TooDeep           more than 8 signatures in each other, or more than 32 in a message of the run
  12 TooMany           more than 1,024 tasks, or more than 1,024 groups and chords
  13 Memory            printed as `canvas: memory refused`, with status 2
";

/// The text on a topic of `canvas help TOPIC`.
pub(crate) fn topic<'a>(name: &str) -> Option<&'a str> {
    match name {
        "reports" => Some(REPORTS),
        "turns" => Some(TURNS),
        "tasks" => Some(TASKS),
        "json" => Some(JSON),
        "celery" => Some(CELERY),
        "limits" => Some(LIMITS),
        _ => None,
    }
}
