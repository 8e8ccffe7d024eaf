// The words of a line. A blank is a space, a tab or a carriage return, so that lines that end in CR LF read as those that end in LF.
// `#` and what follows it is a comment; the caller cuts it off before it asks for words. Places count from 0; a column is a place plus 1.
// Rests on nothing.
ghost use Rattle.std.specs.Prelude.{◌≡◌, ◌+◌, drop};
ghost use Rattle.text.specs.Words.{blank, feed, hash, before, outside, word_from, part_of, same_text};

// Where a word begins and where it ends. They are equal where no word is left.
#[derive(Clone, Copy, PartialEq, Eq)]
pub struct LineWord {
    pub from: usize,
    pub to: usize,
}

pub fn is_blank(c: u8) -> bool
    ensures { result ≡ blank c }
{
    matches!(c, b' ' | b'\t' | b'\r')
}

// The text from a place on, which is empty past the end.
fn rest_of(s: &[u8], at: usize) -> &[u8]
    ensures { result.now ≡ drop at s.now }
{
    s.get(at..).unwrap_or_default()
}

// The place of the first line feed from a place on, or the end of the text.
pub fn line_end(s: &[u8], at: usize) -> usize
    ensures { result ≡ at + before feed (drop at s.now) }
{
    at + rest_of(s, at).iter().take_while(|c| **c != b'\n').count()
}

// The place of the first `#`, or the end of the text.
pub fn comment(s: &[u8]) -> usize
    ensures { result ≡ before hash s.now }
{
    s.iter().take_while(|c| **c != b'#').count()
}

// The place of the first character from a place on that is no blank, or the end of the text.
fn word_start(s: &[u8], at: usize) -> usize
    ensures { result ≡ at + before outside (drop at s.now) }
{
    at + rest_of(s, at).iter().take_while(|c| is_blank(**c)).count()
}

// The place of the first blank from a place on, or the end of the text.
fn word_end(s: &[u8], at: usize) -> usize
    ensures { result ≡ at + before blank (drop at s.now) }
{
    at + rest_of(s, at).iter().take_while(|c| !is_blank(**c)).count()
}

// The first word from a place on.
pub fn next_word(s: &[u8], at: usize) -> LineWord
    ensures { result ≡ word_from s.now at }
{
    let from = word_start(s, at);
    let to = word_end(s, from);
    LineWord { from, to }
}

// What stands between two places, such as the characters of a word: an empty part of the front where that does not lie in the whole.
pub fn part<T: Copy>(s: &[T], from: usize, to: usize) -> &[T]
    ensures { result.now ≡ part_of s.now from to }
{
    s.get(from..to).unwrap_or(&s[..0])
}

// The same characters.
pub fn same(a: &[u8], b: &[u8]) -> bool
    ensures { result ≡ same_text a.now b.now }
{
    a == b
}
