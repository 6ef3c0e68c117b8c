//! The files of the system that the program runs on.
ghost use Rattle.race.specs.Disk.{no_files};

use mk_device::device::Broken;
use mk_device::feed::Feed;
use mk_files::openers::Opener;
use std::fs;
use std::fs::File;

/// The files of the system. Their contract does not state what they hold, nor whether they can be opened and read.
#[derive(Drop)]
pub struct Disk<'a>(pub &'a HostRuntime);

impl Opener for Disk<'_> {
    type File = Feed<File>;

    ghost files = { λ _. no_files };

    fn open(&mut self, path: &str) -> Result<Feed<File>, Broken> {
        match fs::open(self.0, path) {
            Ok(file) => Ok(Feed::new(file)),
            Err(_) => Err(Broken),
        }
    }
}
