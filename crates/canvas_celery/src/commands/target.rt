//! The target of a start.

/// The queue of the workers, their result backend, and how the commands reach them.
#[derive(Clone, Copy)]
pub struct Target<'a> {
    /// The list that the workers read, after the broker's `global_keyprefix` if it has one.
    pub queue: &'a str,
    /// The prefix of the keys of results: the result backend's `global_keyprefix`.
    pub prefix: &'a str,
    /// The number of seconds after which a chord's size is deleted: Celery's `result_expires`. At
    /// least 1.
    pub expires: u32,
    /// The databases of the broker and of the result backend, if the commands are to choose them.
    pub databases: Option<(u32, u32)>,
    /// Whether one script does it all, and does nothing for a run that was started before; else it
    /// is a transaction, which starts a run as often as it is sent.
    pub by_script: bool,
}
