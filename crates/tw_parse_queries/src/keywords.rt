//! The keywords of declarations that search.
ghost use Rattle.std.specs.Prelude.{◌≡◌};
ghost use Rattle.tw_parse_queries.specs.Keywords.{form_of, is_search};

/// What a declaration that searches begins with.
#[derive(Clone, Copy, Debug, PartialEq, Eq)]
pub enum Form {
    Query,
    Solve,
}

/// The form of a declaration that begins with this keyword, if it searches.
pub fn form_of(bytes: &[u8]) -> Option<Form>
    ensures { result ≡ form_of bytes.now }
{
    if bytes == b"%query".as_slice() {
        Some(Form::Query)
    } else if bytes == b"%solve".as_slice() {
        Some(Form::Solve)
    } else {
        None
    }
}

/// Whether declarations with this keyword search.
pub fn is_search(bytes: &[u8]) -> bool
    ensures { result ≡ is_search bytes.now }
{
    form_of(bytes).is_some()
}
