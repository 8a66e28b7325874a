//! The bytes of Telnet in a line of the control conversation (RFC 959, section 3.1; RFC 854).

ghost use Rattle.std.specs.Prelude.{◌≡◌, ◌≤◌, ◌∷◌, ◌++◌, ◌==◌, ◌||◌, ◌↔◌, ℕ, List, length, IsTrue, IfOk};
ghost use Rattle.std.specs.Prelude.{OnOk, count_by};
ghost use Rattle.gft_base.specs.Words.{Lacks};
ghost use Rattle.gft_command.specs.Telnet.{data_mark, doubled, interrupt_process, past_signals};
ghost use Rattle.gft_command.specs.Telnet.{telnet_escape, undoubled};

use gft_base::{OutOfMemory, find_byte};
use std::alloc::Global;

/// The byte that begins Telnet's own commands, interpret as command.
const IAC: u8 = 255;

/// What stands behind the signals in front of a line: interrupt process (255 244) and data mark
/// (255 242), which come with an urgent ABOR.
pub(crate) fn past_signals(line: &[u8]) -> &[u8]
    ensures { result.now ≡ past_signals line.now }
{
    let mut left = line;
    while let [255, signal, behind @ ..] = left {
        if !is_signal(*signal) {
            return left;
        }
        left = behind;
    }
    left
}

fn is_signal(byte: u8) -> bool
    ensures { result ≡ (byte == interrupt_process || byte == data_mark) }
{
    byte == 244 || byte == 242
}

/// The text of a line in which a byte 255 stands doubled. A single one stays.
pub(crate) fn undouble(alloc: Global, line: &[u8]) -> Result<Vec<u8>, OutOfMemory>
    ensures { IfOk result (λ text. text.items ≡ undoubled line.now) }
{
    let mut text = Vec::with_capacity(alloc, line.len())?;
    let mut left = line;
    while let [byte, behind @ ..] = left {
        text.push(*byte)?;
        left = past_double(*byte, behind);
    }
    Ok(text)
}

/// What is left behind a byte: a byte 255 that follows another belongs to it.
fn past_double(byte: u8, behind: &[u8]) -> &[u8]
    ensures left { undoubled (byte ∷ behind.now) ≡ byte ∷ undoubled result.now }
    ensures less { length result.now ≤ length behind.now }
{
    if byte != IAC {
        return behind;
    }
    match behind {
        [255, left @ ..] => left,
        left => left,
    }
}

/// The line in which each byte 255 stands doubled.
pub(crate) fn double(text: Vec<u8>) -> Result<Vec<u8>, OutOfMemory>
    ensures { IfOk result (λ line. line.items ≡ doubled text.items) }
{
    if is_plain(&text) {
        return Ok(text);
    }
    let mut line = Vec::with_capacity(*text.allocator(), text.len())?;
    let mut left = text.as_slice();
    while let [byte, behind @ ..] = left {
        push_double(&mut line, *byte)?;
        left = behind;
    }
    Ok(line)
}

/// Whether no byte of the text is 255.
pub(crate) fn is_plain(text: &[u8]) -> bool
    ensures plain { IsTrue result ↔ Lacks telnet_escape text.now }
    ensures same { IsTrue result → (doubled text.now ≡ text.now) × (undoubled text.now ≡ text.now) }
{
    find_byte(text, IAC).is_none()
}

fn push_double(line: &mut Vec<u8>, byte: u8) -> Result<(), OutOfMemory>
    ensures { OnOk result ((behind : List ℕ) →
        line.new.items ++ doubled behind ≡ line.old.items ++ doubled (byte ∷ behind)) }
{
    if byte == IAC {
        line.push(byte)?;
    }
    line.push(byte)?;
    Ok(())
}

/// How many bytes the text has with each byte 255 doubled.
#[tactic(auto, using(crate::proofs::TelnetLemmas::doubled_len))]
pub(crate) fn doubled_len(text: &[u8]) -> usize
    ensures { result ≡ length (doubled text.now) }
{
    text.len() + count_double(text)
}

fn count_double(text: &[u8]) -> usize
    ensures count { result ≡ count_by (λ b. b == telnet_escape) text.now }
    ensures within { result ≤ length text.now }
{
    text.iter().filter(|byte| **byte == IAC).count()
}
