//! The laws of commands and of messages: they read back from their bytes.

ghost use Rattle.std.specs.Prelude.{◌≡◌, ◌^◌, ◌<◌, ℕ, List, Some, length, map, true};
ghost use Rattle.base64.specs.GeneralPurpose.{IsBytes};
ghost use Rattle.serde_json.specs.Written.{compact_text};
ghost use Rattle.canvas_task.specs.Text.{Text};
ghost use Rattle.canvas_semantics.specs.Line.{Line};
ghost use Rattle.canvas_rewrite.specs.Planned.{IsPlan};
ghost use Rattle.canvas_envelope.specs.Content.{Content};
ghost use Rattle.canvas_envelope.specs.Fits.{fits};
ghost use Rattle.canvas_celery.specs.Resp.{resp};
ghost use Rattle.canvas_celery.specs.Reading.{read};
ghost use Rattle.canvas_celery.specs.Envelope.{body_wire, message_text};
ghost use Rattle.canvas_celery.specs.MessageReading.{read_message};
ghost use Rattle.canvas_celery.specs.ExportReading.{AreNamed, read_export, started};
ghost use Rattle.canvas_celery.specs.Setting.{Setting};
ghost use Rattle.canvas_celery.specs.Start.{start};
ghost use Rattle.canvas_celery.specs.Sizeless.{sizeless};
ghost use Rattle.canvas_celery.specs.ExportView.{naming_of};

/// States that commands read back from their bytes, if these are fewer than 2^64, and that only
/// their bytes read as commands.
pub fn law_of_commands()
    ensures read_back { (cs : List (List Text)) → length (resp cs) < 2 ^ 64
        → read (resp cs) ≡ Some cs }
    ensures nothing_else { (bytes : Text) → (cs : List (List Text)) → read bytes ≡ Some cs
        → bytes ≡ resp cs }
{}

/// States that a message of a plan that fits reads back from its text without the sizes of chords:
/// its task, its call, its links and error callbacks, its place, what follows on its line and its
/// parent. A run's number has 22 digits, and the text in the body is bytes.
pub fn law_of_messages()
    ensures { (run : Text) → length run ≡ 22 → (plan : Line) → IsPlan plan → (queue : Text)
        → (c : Content) → fits c ≡ true → IsBytes (compact_text (body_wire (naming_of run plan) c))
        → read_message (message_text (naming_of run plan) queue c) ≡ Some (sizeless c) }
{}

/// States that a start reads back from its bytes, by a script and by a transaction, if these are
/// fewer than 2^64: the sizes of the chords that start, and its messages in their order, if each of
/// its texts reads as one.
pub fn law_of_exports()
    ensures { (run : Text) → length run ≡ 22 → (setting : Setting) → (sizes : List (ℕ × ℕ))
        → AreNamed sizes → (texts : List Text) → (messages : List Content)
        → map read_message texts ≡ map Some messages
        → length (resp (start run setting sizes texts)) < 2 ^ 64
        → read_export (resp (start run setting sizes texts)) ≡ Some (started sizes messages) }
{}
