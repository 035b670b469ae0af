//! The keywords of checks, and marks.
ghost use Rattle.std.specs.Prelude.{◌≡◌};
ghost use Rattle.tw_parse_checks.specs.Marks.{form_of, is_check, is_name, mark_of, named_mark};

use crate::check::{CheckForm, ExtMark};

/// What the keyword declares, if its declarations are read here.
pub fn form_of(bytes: &[u8]) -> Option<CheckForm>
    ensures { result ≡ form_of bytes.now }
{
    if bytes == b"%mode".as_slice() {
        Some(CheckForm::Mode)
    } else if bytes == b"%block".as_slice() {
        Some(CheckForm::Block)
    } else if bytes == b"%worlds".as_slice() {
        Some(CheckForm::Worlds)
    } else if bytes == b"%terminates".as_slice() {
        Some(CheckForm::Terminates)
    } else {
        None
    }
}

/// Whether declarations with this keyword are read here.
pub fn is_check(bytes: &[u8]) -> bool
    ensures { result ≡ is_check bytes.now }
{
    form_of(bytes).is_some()
}

/// The mark with this sign.
pub fn mark_of(sign: &[u8]) -> Option<ExtMark>
    ensures { result ≡ mark_of sign.now }
{
    if sign == b"+".as_slice() {
        Some(ExtMark::Input)
    } else if sign == b"-".as_slice() {
        Some(ExtMark::Output)
    } else if sign == b"*".as_slice() {
        Some(ExtMark::Free)
    } else {
        None
    }
}

// Whether these bytes may stand behind the sign of a mark.
fn is_name(bytes: &[u8]) -> bool
    ensures { result ≡ is_name bytes.now }
{
    bytes != b"".as_slice()
        && bytes != b"->".as_slice()
        && bytes != b"<-".as_slice()
        && bytes != b"_".as_slice()
        && bytes != b"=".as_slice()
        && bytes != b"type".as_slice()
}

/// The mark that is a sign and a name, as `+X`.
pub fn named_mark(bytes: &[u8]) -> Option<ExtMark>
    ensures { result ≡ named_mark bytes.now }
{
    if bytes.is_empty() || bytes == b"-1".as_slice() {
        return None;
    }
    let (sign, name) = bytes.split_at(1);
    if is_name(name) { mark_of(sign) } else { None }
}
