//! Why a file can't be read.

use std::fmt;
use std::io::{Error, ErrorKind};

/// Why a file that the words name can't be read, or has no such text.
#[derive(Clone, Copy, Debug, PartialEq, Eq)]
pub enum Unread {
    Missing,
    Forbidden,
    Folder,
    /// Standard input, from which something else is read too.
    Taken,
    /// More bytes than are accepted.
    TooLong,
    NotUtf8,
    /// Reading it failed.
    Failed,
}

impl Unread {
    /// Returns the reason for an error of reading.
    pub(crate) fn of(error: &Error) -> Unread {
        match error.kind() {
            ErrorKind::NotFound => Unread::Missing,
            ErrorKind::PermissionDenied => Unread::Forbidden,
            ErrorKind::IsADirectory => Unread::Folder,
            _ => Unread::Failed,
        }
    }
}

impl fmt::Display for Unread {
    fn fmt<W: fmt::Write>(&self, f: &mut fmt::Formatter<W>) -> fmt::Result {
        f.write_str(match self {
            Unread::Missing => "found nothing there, wanted a file",
            Unread::Forbidden => "found what may not be read, wanted a file that may",
            Unread::Folder => "found a folder, wanted a file",
            Unread::Taken => "found standard input, which is taken, wanted a file",
            Unread::TooLong => "found more than 1,048,576 bytes, wanted at most as many",
            Unread::NotUtf8 => "found no text, wanted one in UTF-8",
            Unread::Failed => "found what cannot be read, wanted a file",
        })
    }
}
