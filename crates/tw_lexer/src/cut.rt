//! Where a declaration's text ends.
ghost use Rattle.std.specs.Prelude.{◌≡◌, ◌≤◌, ◌<◌, ◌+◌, ◌^◌, length};
ghost use Rattle.tw_lexer.specs.Cut.{closed, comment_by, cut_after, cut_by, is_done, line_by, open_count, percent_by, plain_by};

/// Where the end of what was read of a declaration's text stands.
#[derive(Clone, Copy, Debug, PartialEq, Eq)]
pub enum Cut {
    /// Outside comments, before the dot that ends the text.
    Plain,
    /// The same, behind a `%`.
    Percent,
    /// In a comment to the end of its line.
    Line,
    /// In a comment, of which so many `%{` are open.
    Comment(u64),
    /// The same, behind a `%`.
    CommentPercent(u64),
    /// The same, behind a `}`.
    CommentClose(u64),
    /// Behind the dot.
    Done,
}

/// Whether the text has its dot.
pub fn is_done(state: Cut) -> bool
    ensures { result ≡ is_done state }
{
    matches!(state, Cut::Done)
}

fn plain_by(byte: u8) -> Cut
    ensures { result ≡ plain_by byte }
{
    match byte {
        b'.' => Cut::Done,
        b'%' => Cut::Percent,
        _ => Cut::Plain,
    }
}

fn percent_by(byte: u8) -> Cut
    ensures { result ≡ percent_by byte }
{
    match byte {
        b'.' => Cut::Done,
        b'{' => Cut::Comment(1),
        b'%' | b' ' | 9 | 11..=13 => Cut::Line,
        _ => Cut::Plain,
    }
}

fn line_by(byte: u8) -> Cut
    ensures { result ≡ line_by byte }
{
    if byte == b'\n' { Cut::Plain } else { Cut::Line }
}

fn comment_by(depth: u64, byte: u8) -> Cut
    ensures { result ≡ comment_by depth byte }
{
    match byte {
        b'%' => Cut::CommentPercent(depth),
        b'}' => Cut::CommentClose(depth),
        _ => Cut::Comment(depth),
    }
}

// The state behind the `}%` that closes the last of so many `%{`.
fn closed(depth: u64) -> Cut
    ensures { result ≡ closed depth }
{
    if depth <= 1 {
        Cut::Plain
    } else {
        Cut::Comment(depth - 1)
    }
}

// The state behind a byte.
fn cut_by(state: Cut, byte: u8) -> Cut
    requires { open_count state + 1 < 2 ^ 64 }
    ensures { result ≡ cut_by state byte }
{
    match state {
        Cut::Plain => plain_by(byte),
        Cut::Percent => percent_by(byte),
        Cut::Line => line_by(byte),
        Cut::Comment(depth) => comment_by(depth, byte),
        Cut::CommentPercent(depth) => {
            if byte == b'{' {
                Cut::Comment(depth + 1)
            } else {
                comment_by(depth, byte)
            }
        }
        Cut::CommentClose(depth) => {
            if byte == b'%' {
                closed(depth)
            } else {
                comment_by(depth, byte)
            }
        }
        Cut::Done => Cut::Done,
    }
}

/// The state behind these bytes. A text may come in any pieces.
pub fn cut_piece(state: Cut, piece: &[u8]) -> Cut
    requires { open_count state + length piece.now < 2 ^ 64 }
    ensures state { result ≡ cut_after state piece.now }
    ensures open { open_count result ≤ open_count state + length piece.now }
{
    let mut state = state;
    for byte in piece {
        state = cut_by(state, *byte);
    }
    state
}
