//! Files in memory.
ghost use Rattle.std.specs.Prelude.{◌≡◌, Some};
ghost use Rattle.program_tests.specs.Shelf as spec;

use mk_device::device::{Broken, Intake};
use mk_files::openers::Opener;

/// What reading a file gives: a text, or nothing but a failure.
#[derive(Clone, Copy)]
pub enum Page<'a> {
    Text(&'a [u8]),
    Unreadable,
}

/// A file with its path.
#[derive(Clone, Copy)]
pub struct Book<'a> {
    pub path: &'a str,
    pub page: Page<'a>,
}

/// The files that are there. Their contract states what they hold, and which there are.
#[derive(Clone, Copy)]
pub struct Shelf<'a> {
    pub books: &'a [Book<'a>],
}

impl<'a> Opener for Shelf<'a> {
    type File = OpenPage<'a>;

    ghost files = { λ shelf. spec.files_of shelf.books.now };

    fn open(&mut self, path: &str) -> Result<OpenPage<'a>, Broken> {
        match page_at(self.books, path) {
            Some(page) => Ok(OpenPage {
                page,
                failed: false,
            }),
            None => Err(Broken),
        }
    }
}

/// An open file, of whose page what is read is taken away.
#[derive(Drop)]
pub struct OpenPage<'a> {
    pub page: Page<'a>,
    pub failed: bool,
}

impl Intake for OpenPage<'_> {
    ghost left = { λ opened. spec.page_text opened.page };

    ghost has_failed = { λ opened. opened.failed };

    ghost readable = { λ opened. Some (spec.is_readable opened.page) };

    ghost reads_left = { λ opened. spec.page_length opened.page };

    fn read(&mut self, buffer: &mut [u8]) -> Result<usize, Broken> {
        match self.page {
            Page::Text(text) => {
                let (some, rest) = text.split_at(text.len().min(buffer.len()));
                buffer[..some.len()].copy_from_slice(some);
                self.page = Page::Text(rest);
                Ok(some.len())
            }
            Page::Unreadable => {
                self.failed = true;
                Err(Broken)
            }
        }
    }
}

/// The page of the first file with this path.
fn page_at<'a>(books: &[Book<'a>], path: &str) -> Option<Page<'a>>
    ensures { result ≡ spec.page_at books.now path.now }
{
    for book in books {
        if book.path == path {
            return Some(book.page);
        }
    }
    None
}
