//! How files are opened.
ghost use Rattle.std.specs.Prelude.{◌≡◌, Bool, false, IfOk, is_ok, Some};
ghost use Rattle.mk_files.specs.Files.{Files};

use mk_device::device::{Broken, Intake};

/// What opens files.
pub trait Opener {
    /// An open file, which gives its bytes.
    type File: Intake + Drop;

    /// What is stated of the files that paths name.
    ghost files: { Self → Files };

    /// Opens the file that this path names, for reading from its beginning. `Broken` says that it cannot be opened.
    fn open(&mut self, path: &str) -> Result<Self::File, Broken>
        ensures works { IfOk result (λ file. Self.File.has_failed file ≡ false) }
        ensures text { IfOk result (λ file. Self.File.left file ≡ (files self.old).text path.now) }
        ensures reads { IfOk result (λ file. Self.File.readable file ≡ (files self.old).reads path.now) }
        ensures opens { (can : Bool) → (files self.old).opens path.now ≡ Some can → is_ok result ≡ can }
        // No path's file is another for it.
        ensures same { files self.new ≡ files self.old };
}
