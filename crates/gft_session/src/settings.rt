//! What a session keeps from one line to the next.

ghost use Rattle.std.specs.Prelude.{◌≡◌};
ghost use Rattle.gft_session.specs.Settings.{start_state, state_of};

use gft_layout::Layout;
use gft_opts::HostPorts;
use gft_range::RangeSet;
use gft_text::HostPort;
use std::alloc::Global;

/// How far a login is.
#[derive(Clone, Copy, Debug, PartialEq, Eq)]
pub(crate) enum Login {
    /// No USER line came since the last PASS line, and nobody is logged in.
    Nobody,
    /// A USER line came since the last PASS line.
    Named,
    In,
}

/// The type of transfers (RFC 959, section 3.1.1).
#[derive(Clone, Copy, Debug, PartialEq, Eq)]
pub(crate) enum TransferType {
    Ascii,
    Image,
}

/// The mode of transfers (RFC 959, section 3.4; GFD.20, extended block mode).
#[derive(Clone, Copy, Debug, PartialEq, Eq)]
pub(crate) enum Mode {
    Stream,
    Extended,
}

/// The session's side of the data connections. It owns the lanes that wait for them.
#[derive(Drop)]
pub(crate) enum DataSide<L> {
    Nobody,
    Listening(Vec<L>),
    Target(HostPort),
    Targets(HostPorts),
}

#[derive(Drop)]
pub(crate) struct Settings<L> {
    pub(crate) login: Login,
    pub(crate) transfer_type: TransferType,
    pub(crate) mode: Mode,
    pub(crate) layout: Layout,
    pub(crate) parallel: u16,
    pub(crate) side: DataSide<L>,
    /// The kept REST list.
    pub(crate) rest: RangeSet,
}

impl<L> Settings<L> {
    /// The settings at the start. It allocates nothing.
    pub(crate) fn new(alloc: Global) -> Self
        ensures { state_of result ≡ start_state }
    {
        Settings {
            login: Login::Nobody,
            transfer_type: TransferType::Ascii,
            mode: Mode::Stream,
            layout: Layout::Partitioned,
            parallel: 1,
            side: DataSide::Nobody,
            rest: RangeSet::new(alloc),
        }
    }
}
