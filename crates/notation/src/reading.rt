//! From readable text to the bytes of a stream.

ghost use Rattle.std.specs.Prelude.{◌≡◌, ◌+◌, ◌≤◌, length, drop, Some, IfOk, MatchBool, OnOk, ◌==◌, slice_index};
ghost use Rattle.notation.specs.Scanning.{Added, Commands, FirstStop, ends_line};
ghost use Rattle.notation.specs.Faults.{text_fault_words};
ghost use Rattle.notation.specs.Writing.{AddedByPiece, Numbers, StreamOf};

use crate::scanning::{ends_command, find_from, is_blank, number};
use encoding::encode;
use parsing::{Wrong, command};
use std::alloc::{AllocError, AllocFailed, Global};
use std::error::Error;
use std::fmt;

/// Why a text gave no stream.
#[derive(Clone, Copy, Debug, PartialEq, Eq)]
pub enum TextFault {
    /// There was no memory.
    NoMemory,
    /// A command is wrong; lines are counted from 1.
    Wrong { line: u32, wrong: Wrong },
}

impl fmt::Display for TextFault {
    ghost output = { λ fault. Some (text_fault_words fault) };

    fn fmt<W: fmt::Write>(&self, f: &mut fmt::Formatter<W>) -> fmt::Result {
        match self {
            TextFault::NoMemory => write!(f, "no memory"),
            TextFault::Wrong { line, wrong } => write!(f, "line {line}: {wrong}"),
        }
    }
}

impl Error for TextFault {}

/// Why a piece of text gave no command; a piece does not know its line.
// An own type and no `Option<Wrong>`, so that `?` takes a `Wrong` and a want of memory by From.
#[derive(Clone, Copy)]
enum Unread {
    NoMemory,
    Because(Wrong),
}

impl From<AllocError> for Unread {
    fn from(_error: AllocError) -> Unread {
        Unread::NoMemory
    }
}

impl From<AllocFailed<i64>> for Unread {
    fn from(_error: AllocFailed<i64>) -> Unread {
        Unread::NoMemory
    }
}

impl From<Wrong> for Unread {
    fn from(wrong: Wrong) -> Unread {
        Unread::Because(wrong)
    }
}

/// The numbers that the words from a place on write.
fn numbers(heap: Global, piece: &[u8], from: usize) -> Result<Vec<i64>, Unread>
    requires { from ≤ length piece.now }
    ensures { IfOk result (λ v. Numbers (drop from piece.now) v.items) }
{
    let mut found = Vec::new(heap);
    for word in piece[from..].split(|byte| is_blank(*byte)) {
        if !word.is_empty() {
            found.push(number(word)?)?;
        }
    }
    Ok(found)
}

/// Adds the command that a piece of text writes, if it writes one.
fn add_piece(heap: Global, out: &mut Vec<u8>, piece: &[u8]) -> Result<(), Unread>
    ensures added { OnOk result (Added out.old.items out.new.items) }
    ensures written { OnOk result (AddedByPiece piece.now out.old.items out.new.items) }
{
    let start = find_from(piece, 0, |byte| !is_blank(byte));
    let Some(letter) = piece.get(start) else {
        return Ok(());
    };
    let end = find_from(piece, start, is_blank);
    if end != start + 1 {
        return Err(Unread::Because(Wrong::NoCommand));
    }
    let operands = numbers(heap, piece, end)?;
    let meant = command(*letter, operands.as_slice())?;
    let bytes = encode(heap, &meant)?;
    out.extend_from_slice(bytes.as_slice())?;
    Ok(())
}

/// The bytes of the commands that a text writes.
pub fn to_bytes(heap: Global, text: &[u8]) -> Result<Vec<u8>, TextFault>
    ensures commands { IfOk result (λ v. Commands v.items) }
    ensures written { IfOk result (λ v. StreamOf text.now v.items) }
{
    let mut bytes = Vec::new(heap);
    let mut line: u32 = 1;
    let mut at = 0;
    // Not by `split`: a comment hides semicolons, so that lines and the pieces of each would be two loops and a clause more.
    'pieces: while at < text.len() {
        let end = find_from(text, at, ends_command);
        // Mostly nothing stands between a line's last semicolon and its end.
        if end > at {
            add_piece(heap, &mut bytes, &text[at..end]).map_err(|unread| match unread {
                Unread::NoMemory => TextFault::NoMemory,
                Unread::Because(wrong) => TextFault::Wrong { line, wrong },
            })?;
        }
        let stop = after_comment(text, end);
        if ends_line(text, stop) {
            line = line.saturating_add(1);
        }
        at = stop + 1;
    }
    Ok(bytes)
}

/// Where the comment ends that begins at a place, if one does; else that place.
fn after_comment(text: &[u8], at: usize) -> usize
    requires { at ≤ length text.now }
    ensures ends { MatchBool (slice_index text.now at == 35) (FirstStop text.now (at + 1) ends_line result) (result ≡ at) }
    ensures within { (at ≤ result) × (result ≤ length text.now) }
{
    match text.get(at) {
        Some(b'#') => find_from(text, at + 1, |byte| byte == b'\n'),
        _ => at,
    }
}

/// Does a line end at a place?
fn ends_line(text: &[u8], at: usize) -> bool
    ensures { result ≡ (slice_index text.now at == 10) }
{
    text.get(at) == Some(&b'\n')
}
