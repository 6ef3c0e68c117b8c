//! Blanks and words of a line.
ghost use Rattle.std.specs.Prelude.{◌≡◌, ◌≤◌, ◌+◌, length};
ghost use Rattle.std.specs.List.{prefix_len};
ghost use Rattle.mk_text.specs.Lexical.{is_blank, are_blanks, past_blanks};
ghost use Rattle.mk_lines.specs.LogicalLines.{first_word, later_words};

use mk_text::lexical::is_blank;

/// Whether nothing but blanks stands in the text.
pub fn are_blanks(text: &[u8]) -> bool
    ensures { result ≡ are_blanks text.now }
{
    text.iter().all(|byte| is_blank(*byte))
}

/// How many blanks stand at the front.
pub fn count_blanks(text: &[u8]) -> usize
    ensures count { result ≡ prefix_len is_blank text.now }
    ensures within { result ≤ length text.now }
{
    for (i, byte) in text.iter().enumerate() {
        if !is_blank(*byte) {
            return i;
        }
    }
    text.len()
}

/// What stands behind the blanks at the front.
pub fn past_blanks(text: &[u8]) -> &[u8]
    ensures { result.now ≡ past_blanks text.now }
{
    &text[count_blanks(text)..]
}

/// A text's first word, and what stands from its second word on.
pub fn split_word(text: &[u8]) -> (&[u8], &[u8])
    ensures first { result.0.now ≡ first_word text.now }
    ensures later { result.1.now ≡ later_words text.now }
    ensures within { prefix_len is_blank text.now + length result.0.now ≤ length text.now }
{
    let text = past_blanks(text);
    for (i, byte) in text.iter().enumerate() {
        if is_blank(*byte) {
            return (&text[..i], past_blanks(&text[i..]));
        }
    }
    (text, &text[text.len()..])
}
