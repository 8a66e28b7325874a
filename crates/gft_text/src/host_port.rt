ghost use Rattle.std.specs.Prelude.{◌≡◌, List, ℕ, MatchOption, length, IfOk, OnErr};
ghost use Rattle.std.specs.List.{AllZip};
ghost use Rattle.gft_base.specs.Words.{comma, parts_at};
ghost use Rattle.gft_text.specs.HostPort.{IsHostPort, IsByte, host_port_text};
ghost use Rattle.gft_text.specs.declared.host_port.HostPort.{HostPort};

use crate::number::{BadNumber, read_number};
use gft_base::{OutOfMemory, split_first};
use std::alloc::Global;

/// An IPv4 address, its first number first, and a port.
#[derive(Clone, Copy, Debug, PartialEq, Eq)]
pub struct HostPort {
    pub host: [u8; 4],
    pub port: u16,
}

/// Reads `h1,h2,h3,h4,p1,p2` (RFC 959, section 4.1.2, PORT): six numbers up to 255, of which the
/// last two are the port's high and low byte. `BadNumber` if the text is none.
pub fn read_host_port(text: &[u8]) -> Result<HostPort, BadNumber>
    ensures address { IfOk result (IsHostPort text.now) }
    ensures none { OnErr result ((at : HostPort) → ¬ IsHostPort text.now at) }
{
    let Some(numbers) = read_six(text) else {
        return Err(BadNumber);
    };
    let [a, b, c, d, high, low] = numbers;
    Ok(HostPort {
        host: [a, b, c, d],
        port: u16::from(high) * 256 + u16::from(low),
    })
}

/// The text of an address, without leading zeros. `OutOfMemory` if it can't be allocated.
pub fn write_host_port(alloc: Global, at: &HostPort) -> Result<Vec<u8>, OutOfMemory>
    ensures text { IfOk result (λ text. text.items ≡ host_port_text at.now) }
    ensures read_again { IfOk result (λ text. IsHostPort text.items at.now) }
{
    let [a, b, c, d] = at.host;
    let (high, low) = (at.port / 256, at.port % 256);
    let text = format!(in alloc; "{a},{b},{c},{d},{high},{low}")?;
    Ok(text.into_bytes())
}

/// Six numbers up to 255, separated by commas.
fn read_six(text: &[u8]) -> Option<[u8; 6]>
    ensures { MatchOption result
        ((ns : List ℕ) → length ns ≡ 6 → ¬ AllZip IsByte (parts_at comma text.now) ns)
        (AllZip IsByte (parts_at comma text.now)) }
{
    let mut numbers = [0; 6];
    let mut rest = Some(text);
    for number in numbers.iter_mut() {
        let (part, after) = split_first(rest?, b',');
        *number = read_byte(part)?;
        rest = after;
    }
    match rest {
        Some(_) => None,
        None => Some(numbers),
    }
}

fn read_byte(text: &[u8]) -> Option<u8>
    ensures { MatchOption result ((n : ℕ) → ¬ IsByte text.now n) (IsByte text.now) }
{
    match read_number(text) {
        Ok(n) if n < 256 => Some(n as u8),
        _ => None,
    }
}
