//! What is seen of the files while a command reads them.

use std::alloc::Global;
use std::cell::Cell;
use std::fs::File;
use std::io::{self, ErrorKind, Read};

/// A file that can't be read.
#[derive(Drop)]
pub struct Unread {
    /// Its name.
    pub name: String,
    /// The system's error.
    pub kind: ErrorKind,
}

/// What is seen of the files that a command reads.
#[derive(Drop)]
pub struct Seen {
    unread: Cell<Vec<Unread>>,
    count: Cell<usize>,
    first: Cell<bool>,
    later: Cell<bool>,
    version_one: Cell<bool>,
}

impl Seen {
    /// Nothing yet.
    pub fn nothing(alloc: Global) -> Seen {
        Seen {
            unread: Cell::new(Vec::new(alloc)),
            count: Cell::new(0),
            first: Cell::new(false),
            later: Cell::new(false),
            version_one: Cell::new(false),
        }
    }

    /// Notes a file that can't be read, if memory is at hand.
    pub fn note_unread(&self, alloc: Global, name: &str, kind: ErrorKind) {
        if let Ok(name) = String::from_str(alloc, name) {
            let mut all = self.unread.replace(Vec::new(alloc));
            let _ = all.push(Unread { name, kind });
            self.unread.set(all);
        }
    }

    /// Notes the text of a file.
    pub fn note_text(&self, text: &[u8]) {
        let is_vector = text.starts_with(b"vector ".as_slice());
        if self.count.get() == 0 {
            self.first.set(is_vector);
        } else if is_vector {
            self.later.set(true);
        }
        self.count.set(self.count.get().saturating_add(1));
        if text.starts_with(b"vector 1\n".as_slice()) {
            self.version_one.set(true);
        }
    }

    /// The files that couldn't be read.
    pub fn take_unread(&self, alloc: Global) -> Vec<Unread> {
        self.unread.replace(Vec::new(alloc))
    }

    /// Whether the first file is a vector file, and no later one is.
    pub fn is_first_alone_vector(&self) -> bool {
        self.first.get() && !self.later.get()
    }

    /// Whether one is a vector file of version 1.
    pub fn has_version_one(&self) -> bool {
        self.version_one.get()
    }
}

/// A file, with the error of a read that failed.
#[derive(Drop)]
pub struct Watched {
    /// The file.
    pub from: File,
    /// The error of the last read that failed.
    pub failed: Option<ErrorKind>,
}

impl Read for Watched {
    fn read(&mut self, bytes: &mut [u8]) -> io::Result<usize> {
        let read = self.from.read(bytes);
        if let Err(error) = &read {
            self.failed = Some(error.kind());
        }
        read
    }
}
