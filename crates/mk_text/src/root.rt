//! The root: the directory that relative paths start from.
ghost use Rattle.std.specs.Prelude.{◌≡◌, List, ℕ, map, IfOk};
ghost use Rattle.mk_name.specs.Gives.{Gives};
ghost use Rattle.mk_text.specs.Spelling.{components, reduced, root_of, top_of};

use crate::components::{add_path, copies, from_top};
use crate::limits::is_root;
use mk_name::fault::{Fault, Halt, Source};
use std::alloc::{AllocError, Global};
use std::marker::Model;

/// The directory that relative paths start from. Names below it are spelled without it (profile).
#[derive(Debug)]
pub struct Root {
    text: Vec<u8>,
    /// The reduced components of the text.
    parts: Vec<Vec<u8>>,
    /// The components, spelled from the top.
    top: Vec<u8>,
}

// By hand, so that it is proved once (docs/GATE.md, "What costs the prover").
impl Drop for Root {
    fn drop(self) {
        let Root {
            text: _,
            parts: _,
            top: _,
        } = self;
    }
}

impl Model for Root {
    ghost Value = { List ℕ };

    ghost view = { λ a. a.text.items };

    ghost invariant = { λ a. (map (λ part. part.items) a.parts.items ≡ reduced (components a.text.items))
        × (a.top.items ≡ top_of a.text.items) };
}

impl Root {
    /// The root with this text (profile): one that begins with `/`, has at most 4,096 bytes and
    /// holds neither NUL nor newline.
    ///
    /// Any other text is `BadName` in the settings, at place 0, which reports the text.
    pub fn read(alloc: Global, text: &[u8]) -> Result<Root, Halt>
        ensures { Gives result (root_of text.now) }
    {
        if !is_root(text) {
            let fault = Fault::bad_name(alloc, Source::Settings, text)?;
            return Err(Halt::Fault(fault));
        }
        Ok(Root::from_text(alloc, text)?)
    }

    /// An equal root. The only error is out of memory.
    pub fn copy(&self, alloc: Global) -> Result<Root, AllocError>
        ensures { IfOk result (λ root. root ≡ self.now) }
    {
        Root::from_text(alloc, self.text.as_slice())
    }

    fn from_text(alloc: Global, text: &[u8]) -> Result<Root, AllocError>
        ensures { IfOk result (λ root. root ≡ text.now) }
    {
        let mut parts = Vec::new(alloc);
        add_path(&mut parts, text)?;
        Ok(Root {
            text: Vec::from_slice(alloc, text)?,
            parts: copies(alloc, parts.as_slice())?,
            top: from_top(alloc, parts.as_slice(), text.len())?,
        })
    }

    /// The reduced components of the root's text.
    pub(crate) fn parts(&self) -> &[Vec<u8>]
        ensures { map (λ part. part.items) result.now ≡ reduced (components self.now) }
    {
        self.parts.as_slice()
    }

    /// The root's text.
    pub fn text(&self) -> &[u8]
        ensures { result.now ≡ self.now }
    {
        self.text.as_slice()
    }

    /// The root, spelled from the top: a slash, and then the reduced components of its text with one slash between
    /// each two. For the topmost folder that is the slash alone.
    pub fn top(&self) -> &[u8]
        ensures { result.now ≡ top_of self.now }
    {
        self.top.as_slice()
    }
}
