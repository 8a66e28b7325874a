ghost use Rattle.std.specs.Prelude.{◌≡◌, ◌⊎◌, ◌+◌, ◌<◌, ◌≤◌, ℕ, [], ◌∷◌, ◌++◌, false, true, length};
ghost use Rattle.std.specs.Prelude.{OnOk, OnErr, IfNone, IfSome};
ghost use Rattle.gft_base.specs.declared.TheConstants.{LIMIT};
ghost use Rattle.gft_outside.specs.Words.{is_live};
ghost use Rattle.gft_receive.specs.Table.{TakesOut, IsAtPlace, PutsIn, live_numbers};

use arrayvec::ArrayVec;
use gft_eblock::Channel;
use gft_outside::{MAX_LIVE, MAX_OPENED};

/// A channel that was opened and hasn't ended.
#[derive(Drop)]
pub(crate) struct LiveChannel {
    pub(crate) number: u32,
    pub(crate) reader: Channel,
}

impl Default for LiveChannel {
    fn default() -> Self {
        LiveChannel {
            number: 0,
            reader: Channel::new(0),
        }
    }
}

/// No further channel may be opened.
#[derive(Clone, Copy, Debug)]
pub(crate) struct Full;

/// The channels of one lane: those that are live, and how many were opened.
#[derive(Drop)]
pub(crate) struct Channels {
    pub(crate) shift: u64,
    pub(crate) table: ArrayVec<LiveChannel, MAX_LIVE>,
    pub(crate) opened: u32,
}

impl Channels {
    /// None yet. Their offsets have `shift` added.
    pub(crate) fn new(shift: u64) -> Channels
        ensures { (result.shift ≡ shift) × (result.table.items ≡ []) × (result.opened ≡ 0) }
    {
        Channels {
            shift,
            table: ArrayVec::new(),
            opened: 0,
        }
    }

    /// A channel is opened, unless as many are live, or were opened, as a lane may have.
    pub(crate) fn open(&mut self, channel: u32) -> Result<(), Full>
        requires shift { self.old.shift ≤ LIMIT }
        ensures opens { OnOk result (PutsIn channel self.old self.new) }
        ensures full { OnErr result ((MAX_LIVE ≤ length self.old.table.items)
            ⊎ (MAX_OPENED ≤ self.old.opened)) }
        ensures same { OnErr result (self.new ≡ self.old) }
    {
        if self.table.is_full() || self.opened >= MAX_OPENED {
            return Err(Full);
        }
        self.table.push(LiveChannel {
            number: channel,
            reader: Channel::new(self.shift),
        });
        self.opened += 1;
        Ok(())
    }

    /// A live channel ends, and comes back.
    pub(crate) fn close(&mut self, channel: u32) -> Channel
        requires live { is_live channel (live_numbers self.old.table.items) ≡ true }
        ensures closes { TakesOut channel result self.old self.new }
    {
        let Some(place) = place_of(&self.table, channel) else {
            unreachable!()
        };
        let LiveChannel { number: _, reader } = self.table.remove(place);
        reader
    }
}

/// Where the channel with this number stands.
pub(crate) fn place_of(table: &[LiveChannel], channel: u32) -> Option<usize>
    ensures some { IfSome result (λ place. IsAtPlace table.now channel place) }
    ensures none { IfNone result (is_live channel (live_numbers table.now) ≡ false) }
{
    for (i, live) in table.iter().enumerate() {
        if live.number == channel {
            return Some(i);
        }
    }
    None
}
