ghost use Rattle.std.specs.Prelude.{◌≡◌, ◌++◌, ◌∷◌, ◌↔◌, [], length, slice_get, IsTrue, IfOk, OnOk};
ghost use Rattle.std.specs.Prelude.{OnErr};
ghost use Rattle.gft_opts.specs.Targets.{FitsTargets};

use crate::MAX_TARGETS;
use crate::laws::host_port_fits;
use gft_base::OutOfMemory;
use gft_text::HostPort;
use std::alloc::Global;
use std::marker::Model;

/// Addresses, in order. Contracts see their list.
#[derive(Debug, Drop)]
pub struct HostPorts {
    addresses: Vec<HostPort>,
}

impl Model for HostPorts {
    ghost use Rattle.std.specs.Prelude.{List};
    ghost use Rattle.std.specs.List.{AllByRecursion};
    ghost use Rattle.gft_text.specs.Words.{FitsHostPort};
    ghost use Rattle.gft_text.specs.declared.HostPort.{HostPort};

    ghost Value = { List HostPort };

    ghost view = { λ h. h.addresses.items };

    ghost invariant = { λ h. AllByRecursion FitsHostPort h.addresses.items };
}

impl PartialEq for HostPorts {
    ghost use Rattle.std.proofs.Common.{rules};
    ghost use Rattle.std.specs.Cmp.Lexicographic.{lists_per, pointwise};
    ghost use Rattle.std.specs.Cmp.Rules.{comparing};

    ghost eq = { pointwise ⟦<HostPort as PartialEq>⟧.eq };

    ghost laws = { lists_per (Prim.search (comparing, rules)) };

    fn eq(&self, other: &HostPorts) -> bool {
        self.addresses == other.addresses
    }
}

impl HostPorts {
    /// No addresses. It allocates nothing.
    pub fn new(alloc: Global) -> Self
        ensures { result ≡ [] }
    {
        HostPorts {
            addresses: Vec::new(alloc),
        }
    }

    /// No addresses, and room for so many.
    pub(crate) fn with_room(alloc: Global, count: usize) -> Result<Self, OutOfMemory>
        ensures { IfOk result (λ addresses. addresses ≡ []) }
    {
        Ok(HostPorts {
            addresses: Vec::with_capacity(alloc, count)?,
        })
    }

    /// Adds an address at the end. `OutOfMemory` leaves the addresses as they were.
    pub fn push(&mut self, at: HostPort) -> Result<(), OutOfMemory>
        ensures ok { OnOk result (self.new ≡ self.old ++ at ∷ []) }
        ensures err { OnErr result (self.new ≡ self.old) }
    {
        host_port_fits(&at);
        self.addresses.push(at)?;
        Ok(())
    }

    /// How many addresses there are.
    pub fn count(&self) -> usize
        ensures { result ≡ length self.now }
    {
        self.addresses.len()
    }

    /// The address at place `i`, from 0 on.
    pub fn nth(&self, i: usize) -> Option<HostPort>
        ensures { result ≡ slice_get self.now i }
    {
        self.addresses.get(i).copied()
    }

    /// All addresses, in order.
    pub fn as_slice(&self) -> &[HostPort]
        ensures { result.now ≡ self.now }
    {
        &self.addresses
    }

    /// Whether the addresses have a text as targets: there are 1 to 16.
    pub fn fits(&self) -> bool
        ensures { IsTrue result ↔ FitsTargets self.now }
    {
        let count = self.addresses.len();
        0 < count && count <= MAX_TARGETS
    }
}
