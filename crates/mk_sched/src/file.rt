//! Files: what they hold, and when they were written.
ghost use Rattle.std.specs.Prelude.{◌≡◌};

use crate::contents::Contents;
use std::marker::Model;

/// A file: what it holds, and when it was written.
#[derive(Debug, Drop)]
pub struct File {
    contents: Contents,
    time: u64,
}

impl Model for File {
    ghost use Rattle.mk_sched.specs.Stores as stores;

    ghost Value = { stores.File };

    ghost view = { λ a. record { bytes = a.contents; time = a.time } };
}

impl File {
    /// The file with these contents and this time.
    pub fn new(contents: Contents, time: u64) -> File
        ensures { result ≡ record { bytes = contents; time = time } }
    {
        File { contents, time }
    }

    /// What the file holds.
    pub fn contents(&self) -> &Contents
        ensures { result.now ≡ self.now.bytes }
    {
        &self.contents
    }

    /// When the file was written.
    pub fn time(&self) -> u64
        ensures { result ≡ self.now.time }
    {
        self.time
    }
}
