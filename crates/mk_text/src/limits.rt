//! Which texts spell a name, and which a root (profile).
ghost use Rattle.std.specs.Prelude.{◌≡◌};
ghost use Rattle.mk_text.specs.Spelling as spec;

/// The greatest length of a path, in bytes.
pub(crate) const MAX_PATH_LEN: usize = 4_096;

/// Whether the text is a root: a path that begins with a slash.
pub fn is_root(text: &[u8]) -> bool
    ensures { result ≡ spec.is_root text.now }
{
    is_absolute(text) && is_path(text)
}

/// Whether the text begins with a slash.
pub fn is_absolute(text: &[u8]) -> bool
    ensures { result ≡ spec.is_absolute text.now }
{
    matches!(text, [b'/', ..])
}

/// Whether the text is a path: 1 to 4,096 bytes, none of them NUL or a newline.
pub fn is_path(text: &[u8]) -> bool
    ensures { result ≡ spec.is_path text.now }
{
    has_path_length(text) && is_line(text)
}

/// Whether the text is a word: 1 to 4,096 bytes, none of them left out of names in makefiles.
pub fn is_word(text: &[u8]) -> bool
    ensures { result ≡ spec.is_word text.now }
{
    has_path_length(text) && has_name_bytes(text)
}

fn has_path_length(text: &[u8]) -> bool
    ensures { result ≡ spec.has_path_length text.now }
{
    !text.is_empty() && text.len() <= MAX_PATH_LEN
}

/// Whether no name in a makefile holds the byte: a control byte, a blank, or one with another
/// meaning.
fn is_left_out(byte: u8) -> bool
    ensures { result ≡ spec.is_left_out byte }
{
    byte <= b' '
        || byte == 0x7f
        || matches!(
            byte,
            b'#' | b'$'
                | b':'
                | b';'
                | b'='
                | b'\\'
                | b'%'
                | b'('
                | b')'
                | b'*'
                | b'?'
                | b'['
                | b'"'
                | b'\''
                | b'&'
                | b'|'
        )
}

/// Whether no byte is NUL or a newline.
fn is_line(text: &[u8]) -> bool
    ensures { result ≡ spec.is_line text.now }
{
    text.iter().all(|byte| *byte != 0 && *byte != b'\n')
}

/// Whether no byte is left out of names in makefiles.
fn has_name_bytes(text: &[u8]) -> bool
    ensures { result ≡ spec.has_name_bytes text.now }
{
    text.iter().all(|byte| !is_left_out(*byte))
}
