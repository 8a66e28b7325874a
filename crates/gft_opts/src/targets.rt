ghost use Rattle.std.specs.Prelude.{◌≡◌, ◌≤◌, List, length, IfOk, IfErr};
ghost use Rattle.gft_base.specs.Words.{parts_at, space};
ghost use Rattle.gft_text.specs.declared.HostPort.{HostPort};
ghost use Rattle.gft_opts.specs.Refusal.{RefusesOption};
ghost use Rattle.gft_opts.specs.Targets.{FitsTargets, IsTargets, targets_text};

use crate::MAX_TARGETS;
use crate::error::OptsError;
use crate::host_ports::HostPorts;
use gft_base::{OutOfMemory, count_parts, split_first};
use gft_text::{read_host_port, write_host_port};
use std::alloc::Global;

/// Reads the targets of a transfer (GFD.20, SPOR): 1 to 16 addresses `h1,h2,h3,h4,p1,p2`, with one
/// space between them. It allocates once, for all of them. `BadParameter` if the text is none, and
/// `OutOfMemory` only if it has at most 16 parts.
pub fn read_targets(alloc: Global, text: &[u8]) -> Result<HostPorts, OptsError>
    ensures targets { IfOk result (IsTargets text.now) }
    ensures none { IfErr result
        (RefusesOption ((targets : List HostPort) → ¬ IsTargets text.now targets)
        (length (parts_at space text.now) ≤ MAX_TARGETS)) }
{
    let count = count_parts(text, b' ');
    if count > MAX_TARGETS {
        return Err(OptsError::BadParameter);
    }
    let mut targets = HostPorts::with_room(alloc, count)?;
    let mut rest = Some(text);
    while let Some(left) = rest {
        let (part, after) = split_first(left, b' ');
        let Ok(at) = read_host_port(part) else {
            return Err(OptsError::BadParameter);
        };
        targets.push(at)?;
        rest = after;
    }
    Ok(targets)
}

/// The text of targets that fit, without leading zeros. `OutOfMemory` when it can't be allocated.
pub fn write_targets(alloc: Global, targets: &HostPorts) -> Result<Vec<u8>, OutOfMemory>
    requires { FitsTargets targets.now }
    ensures text { IfOk result (λ text. text.items ≡ targets_text targets.now) }
    ensures read_again { IfOk result (λ text. IsTargets text.items targets.now) }
{
    let Some((first, others)) = targets.as_slice().split_first() else {
        return Ok(Vec::new(alloc));
    };
    let mut text = write_host_port(alloc, first)?;
    for at in others {
        text.push(b' ')?;
        text.extend_from_slice(&write_host_port(alloc, at)?)?;
    }
    Ok(text)
}
