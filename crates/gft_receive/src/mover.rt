ghost use Rattle.std.specs.Prelude.{◌≡◌, ◌+◌, ◌<◌, ◌≤◌, ℕ, List, ◌∷◌, true, [], length, map, reverse, take};
ghost use Rattle.gft_base.specs.declared.TheConstants.{LIMIT};
ghost use Rattle.gft_base.specs.Words.{Rose};
ghost use Rattle.gft_drive.specs.Words.{sent_by};
ghost use Rattle.gft_eblock.specs.declared.TheConstants.{MAX_BYTES};
ghost use Rattle.gft_outside.specs.Words.{Came, Ended, Gives, LaneInput, Opened, Silence, channels_after};
ghost use Rattle.gft_outside.specs.Words.{is_live, no_channels};
ghost use Rattle.gft_pass.specs.Words.{nothing};
ghost use Rattle.gft_book.specs.Words.{IsLaneOf, SamePass};
ghost use Rattle.gft_receive.specs.Honest.{IsHonestLeft, TellsTotal};
ghost use Rattle.gft_receive.specs.Moved.{IsMoved};
ghost use Rattle.gft_receive.specs.Table.{live_numbers};
ghost use Rattle.gft_receive.specs.Turns.{Awaits, FeedsHonest, StandsBehind, TakesInput, Turned, TurnedBy};
ghost use Rattle.gft_receive.specs.Turns.{bounds_of};

use crate::channels::{Channels, Full, place_of};
use crate::feeding::feed;
use crate::halt::{Halt, Unfed};
use crate::limits::Limits;
use crate::patience::Patience;
use gft_base::Failed;
use gft_book::{Run, Shared};
use gft_drive::{Drive, Origin};
use gft_eblock::MAX_BYTES;
use gft_outside::{Lane, LaneEvent};
use gft_pass::{Cause, Pass};
use std::sync::Wait;

/// How many bytes a mover takes at once at most.
const BUFFER_LEN: usize = 65_536;

/// What a mover knows of its lane.
#[derive(Drop)]
pub(crate) struct Mover {
    lane: u16,
    channels: Channels,
    patience: Patience,
    /// How many bytes were taken.
    taken: u64,
}

impl Mover {
    fn new(lane: u16, limits: &Limits) -> Mover
        requires shift { limits.now.shift ≤ LIMIT }
        ensures stands { StandsBehind [] result }
        ensures bounds { bounds_of result
            ≡ record { lane = lane; shift = limits.now.shift; idle = limits.now.idle } }
    {
        Mover {
            lane,
            channels: Channels::new(limits.shift),
            patience: Patience::new(limits.idle),
            taken: 0,
        }
    }

    /// A channel was opened.
    fn open(&mut self, channel: u32) -> Result<(), Halt>
        requires limit { self.old.channels.shift ≤ LIMIT }
        requires next { channel ≡ self.old.channels.opened }
        ensures { TakesInput (Opened channel) self.old self.new result }
    {
        match self.channels.open(channel) {
            Ok(()) => {
                self.patience.reset();
                Ok(())
            }
            Err(Full) => Err(Halt::Failed(Cause::TooManyChannels {
                lane: self.lane,
                opened: self.channels.opened,
                live: self.channels.table.len() as u16,
            })),
        }
    }

    /// A channel ended. One that gave no byte counts as nothing.
    fn close(&mut self, channel: u32) -> Result<(), Halt>
        requires live { is_live channel (live_numbers self.old.channels.table.items) ≡ true }
        ensures { TakesInput (Ended channel) self.old self.new result }
    {
        let reader = self.channels.close(channel);
        let taken = reader.taken();
        if taken > 0 && !reader.is_done() {
            return Err(Halt::Failed(Cause::Lost {
                lane: self.lane,
                channel,
                taken,
            }));
        }
        self.patience.reset();
        Ok(())
    }

    /// Nothing came, and the Book has had so many turns.
    fn wait(&mut self, turns: u64) -> Result<(), Halt>
        ensures { TakesInput Silence self.old self.new result }
    {
        if self.patience.wait(turns) {
            return Err(Halt::Failed(Cause::Idle {
                lane: self.lane,
                turns,
            }));
        }
        Ok(())
    }

    /// Bytes came on a channel.
    fn feed<D: Drive + Drop, O: Origin, N: Run, R: Wait>(
        &mut self,
        rt: &R,
        book: &Shared<D, O, N>,
        pass: &mut Pass,
        channel: u32,
        bytes: &[u8],
    ) -> Result<(), Halt>
        requires pass { IsLaneOf N.start pass.old }
        requires some { 0 < length bytes.now }
        requires room { self.old.taken + length bytes.now ≤ MAX_BYTES }
        requires live { is_live channel (live_numbers self.old.channels.table.items) ≡ true }
        requires honest { FeedsHonest (sent_by O.source O.orders O.fit) N.start self.old pass.old channel
            bytes.now }
        ensures turned { (inputs : List LaneInput) → StandsBehind inputs self.old
            → Turned (bounds_of self.old) inputs (reverse (map (λ value. Came channel value) bytes.now)) ⊥ ⊥
            self.new pass.old pass.new result }
    {
        self.patience.reset();
        self.taken += bytes.len() as u64;
        let Some(place) = place_of(&self.channels.table, channel) else {
            unreachable!()
        };
        let reader = &mut self.channels.table[place].reader;
        match feed(rt, book, pass, reader, bytes) {
            Ok(()) => {}
            Err(Unfed::Stop) => return Err(Halt::Stopped),
            Err(Unfed::Refused(bad)) => {
                return Err(Halt::Failed(Cause::BadBlock {
                    lane: self.lane,
                    channel,
                    bad,
                }));
            }
        }
        if self.taken >= MAX_BYTES {
            return Err(Halt::Failed(Cause::StreamTooLong { lane: self.lane }));
        }
        Ok(())
    }

    /// Takes what comes next, and books what it brings.
    fn turn<L: Lane, D: Drive + Drop, O: Origin, N: Run, R: Wait>(
        &mut self,
        rt: &R,
        lane: &mut L,
        book: &Shared<D, O, N>,
        pass: &mut Pass,
        buf: &mut [u8],
    ) -> Result<(), Halt>
        requires pass { IsLaneOf N.start pass.old }
        requires buffer { length buf.old ≡ BUFFER_LEN }
        requires awaits { Awaits (sent_by O.source O.orders O.fit) N.start (L.state lane.old) self.old
            pass.old }
        ensures buffer { length buf.new ≡ length buf.old }
        ensures turned { (inputs : List LaneInput) → StandsBehind inputs self.old
            → (L.state lane.old).channels ≡ channels_after inputs no_channels
            → TurnedBy (bounds_of self.old) inputs (L.state lane.old) (L.state lane.new) self.new pass.old
            pass.new result }
    {
        let room = (MAX_BYTES - self.taken).min(BUFFER_LEN as u64) as usize;
        let event = match lane.next(&mut buf[..room]) {
            Ok(event) => event,
            Err(Failed) => return Err(Halt::Failed(Cause::LinkFailed)),
        };
        match event {
            LaneEvent::Done => Err(Halt::Done),
            LaneEvent::Bytes { channel, count } => self.feed(
                rt,
                book,
                pass,
                channel,
                &buf[..count],
            ),
            LaneEvent::Opened(channel) => self.open(channel),
            LaneEvent::Ended(channel) => self.close(channel),
            LaneEvent::Quiet => {
                let turns = book.lock(rt).turns();
                self.wait(turns)
            }
        }
    }
}

/// Takes what comes on one lane, and books with its pass what its channels bring, until the lane is done or
/// fails, or the transfer has ended: it failed, or all its EODs came.
///
/// The pass keeps a new cause only by the table of `specs/Causes.antt`, as Idle or LinkFailed, or as the
/// Book refuses what is booked.
pub fn receive_lane<L: Lane, D: Drive + Drop, O: Origin, N: Run, R: Wait>(
    rt: &R,
    lane: &mut L,
    book: &Shared<D, O, N>,
    pass: &mut Pass,
    limits: &Limits,
)
    requires lane { (L.state lane.old).channels ≡ no_channels }
    requires pass { IsLaneOf N.start pass.old }
    requires fresh { pass.old.count ≡ nothing }
    requires shift { limits.now.shift ≤ LIMIT }
    requires honest { IsHonestLeft (sent_by O.source O.orders O.fit) N.start limits.now.shift pass.old.lane
        (L.state lane.old).left × TellsTotal N.start limits.now.shift (L.state lane.old).left }
    ensures pass { SamePass pass.old pass.new }
    ensures moved { IsMoved
        (record { lane = pass.old.lane; shift = limits.now.shift; idle = limits.now.idle })
        (L.state lane.old) (L.state lane.new) pass.old.count pass.new.count }
{
    let mut mover = Mover::new(pass.lane(), limits);
    let mut buf = [0u8; BUFFER_LEN];
    'turns: for _ in rt.forever() {
        if !book.lock(rt).awaits_more(pass) {
            return;
        }
        match mover.turn(rt, lane, book, pass, &mut buf) {
            Ok(()) => {}
            Err(Halt::Done) => return,
            Err(Halt::Stopped) => return,
            Err(Halt::Failed(cause)) => {
                book.lock(rt).fail(pass, cause);
                return;
            }
        }
    }
}
