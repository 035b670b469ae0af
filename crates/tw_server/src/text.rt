//! A declaration's text.
ghost use Rattle.std.specs.Prelude.{◌≡◌, ◌++◌, [], ◌∷◌, List, ℕ, ◌<◌, ◌≤◌, length};
ghost use Rattle.tw_server.specs.Gather.{ReadsText, IsGathered};
ghost use Rattle.tw_server.specs.Counts.{CountsReads};
ghost use Rattle.tw_server.specs.Limits.{text_limit};

use crate::feed::{Feed, Stop};
use crate::limits::TEXT_MOST;
use std::alloc::Global;
use tw_lexer::{Cut, cut_piece, is_done};
use tw_ports::Source;

/// What of a text was not kept.
#[derive(Clone, Copy, Debug, PartialEq, Eq)]
pub enum Lost {
    Nothing,
    TooLong,
    NoMemory,
}

/// A text as it is gathered.
#[derive(Drop)]
pub struct Text {
    pub bytes: Vec<u8>,
    pub lost: Lost,
    ghost short: { length bytes.items ≤ text_limit },
}

impl Text {
    pub fn new(alloc: Global) -> Text
        ensures empty { result.bytes.items ≡ [] }
        ensures lost { result.lost ≡ Lost.Nothing }
    {
        Text {
            bytes: Vec::new(alloc),
            lost: Lost::Nothing,
        }
    }

    fn push(&mut self, byte: u8)
        ensures { (text : List ℕ) → IsGathered self.old.lost self.old.bytes.items text → IsGathered self.new.lost self.new.bytes.items (text ++ byte ∷ []) }
    {
        if self.lost == Lost::Nothing {
            if self.bytes.len() >= TEXT_MOST {
                self.lost = Lost::TooLong;
            } else if self.bytes.push(byte).is_err() {
                self.lost = Lost::NoMemory;
            }
        }
    }
}

/// Reads a text. At `Err` it is as much of one as there is.
pub fn read_text<S: Source>(feed: &mut Feed, text: &mut Text, source: &mut S) -> Result<(), Stop>
    requires empty { text.old.bytes.items ≡ [] }
    requires lost { text.old.lost ≡ Lost.Nothing }
    ensures text { ReadsText feed.old (S.left source.old) feed.new (S.left source.new) text.new.lost text.new.bytes.items result }
    ensures counts { CountsReads (S.faults source.old) (S.faults source.new) result }
{
    let mut cut = Cut::Plain;
    loop {
        match feed.byte(source) {
            Ok(byte) => {
                text.push(byte);
                if byte == b'\n' && is_done(cut) {
                    return Ok(());
                }
                cut = cut_piece(cut, &[byte]);
            }
            Err(stop) => return Err(stop),
        }
    }
}
