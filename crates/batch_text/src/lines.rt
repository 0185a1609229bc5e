// The lines of a batch and of a file of names.
ghost use Rattle.std.specs.Prelude.{◌≡◌, ◌≤◌, IfSome, is_some, length, reverse};
ghost use Rattle.std.specs.List.{list_all, prefix_len};
ghost use Rattle.std.specs.Str.{is_utf8};
ghost use Rattle.batch_text.specs.Lines.{
  is_blank,
  is_comment,
  says_nothing,
  word_length,
  word_of,
  rest_of,
  without_end,
  without_indent,
};

use bstr::ByteSlice;

/// The line as text, if it is UTF-8.
pub(crate) fn text_of(line: &[u8]) -> Option<&str>
    ensures told { is_some result ≡ is_utf8 line.now }
    ensures same { IfSome result (λ text. text.now ≡ line.now) }
{
    line.to_str().ok()
}

/// Whether a line says nothing: it is blank, or a comment.
pub(crate) fn says_nothing(line: &str) -> bool
    ensures { result ≡ says_nothing line.now }
{
    is_comment(line.as_bytes()) || are_blanks(line.as_bytes())
}

fn is_comment(line: &[u8]) -> bool
    ensures { result ≡ is_comment line.now }
{
    match line {
        [] => false,
        [first, ..] => *first == b'#',
    }
}

fn are_blanks(line: &[u8]) -> bool
    ensures { result ≡ list_all is_blank line.now }
{
    line.iter().all(|byte| is_blank(*byte))
}

/// What stands before the first blank.
pub(crate) fn word(line: &str) -> &str
    ensures { result.now ≡ word_of line.now }
{
    &line[..word_length(line.as_bytes())]
}

/// What stands behind the first blanks, without the blanks at its end.
pub(crate) fn rest(line: &str) -> &str
    ensures { result.now ≡ rest_of line.now }
{
    without_end(without_indent(&line[word_length(line.as_bytes())..]))
}

fn word_length(line: &[u8]) -> usize
    ensures value { result ≡ word_length line.now }
    ensures within { result ≤ length line.now }
{
    line.iter().take_while(|byte| !is_blank(**byte)).count()
}

fn without_indent(text: &str) -> &str
    ensures { result.now ≡ without_indent text.now }
{
    &text[blanks_in_front(text.as_bytes())..]
}

fn blanks_in_front(bytes: &[u8]) -> usize
    ensures value { result ≡ prefix_len is_blank bytes.now }
    ensures within { result ≤ length bytes.now }
{
    bytes.iter().take_while(|byte| is_blank(**byte)).count()
}

fn without_end(text: &str) -> &str
    ensures { result.now ≡ without_end text.now }
{
    &text[..text.len() - blanks_behind(text.as_bytes())]
}

fn blanks_behind(bytes: &[u8]) -> usize
    ensures value { result ≡ prefix_len is_blank (reverse bytes.now) }
    ensures within { result ≤ length bytes.now }
{
    bytes
        .iter()
        .rev()
        .take_while(|byte| is_blank(**byte))
        .count()
}

fn is_blank(byte: u8) -> bool
    ensures { result ≡ is_blank byte }
{
    byte == b' ' || byte == b'\t'
}
