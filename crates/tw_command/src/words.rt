//! The words of a command line.
ghost use Rattle.std.specs.Prelude.{◌≡◌, ◌<◌, ◌≤◌, ◌-◌, ◌++◌, [], ◌∷◌, false, true, length, take, drop, slice_index, MatchOption};
ghost use Rattle.std.specs.Str.{IsCharBoundary, IsUtf8};
ghost use Rattle.tw_command.specs.Words.{is_separator, word_of, words_of};

// Whether the byte parts words.
fn is_separator(byte: u8) -> bool
    ensures { result ≡ is_separator byte }
{
    byte == b' ' || (b'\t' <= byte && byte <= b'\r')
}

// How many separators stand at the front.
fn separators(line: &[u8]) -> usize
    ensures within { result ≤ length line.now }
    ensures words { words_of (drop result line.now) ≡ words_of line.now }
    ensures next { result < length line.now → is_separator (slice_index line.now result) ≡ false }
    ensures last { 0 < result → is_separator (slice_index line.now (result - 1)) ≡ true }
{
    for (i, byte) in line.iter().enumerate() {
        if !is_separator(*byte) {
            return i;
        }
    }
    line.len()
}

// How many bytes stand before the first separator.
fn word_length(line: &[u8]) -> usize
    ensures within { result ≤ length line.now }
    ensures words { words_of line.now ≡ word_of (take result line.now) ++ words_of (drop result line.now) }
    ensures next { result < length line.now → is_separator (slice_index line.now result) ≡ true }
    ensures some { 0 < length line.now → is_separator (slice_index line.now 0) ≡ false → 0 < result }
{
    for (i, byte) in line.iter().enumerate() {
        if is_separator(*byte) {
            return i;
        }
    }
    line.len()
}

// The first word, and what follows it.
pub fn next_word(line: &str) -> Option<(&str, &str)>
    ensures words { MatchOption result (words_of line.now ≡ []) (λ found. words_of line.now ≡ found.0.now ∷ words_of found.1.now) }
{
    let rest = &line[separators(line.as_bytes())..];
    if rest.is_empty() {
        return None;
    }
    let count = word_length(rest.as_bytes());
    Some((&rest[..count], &rest[count..]))
}
