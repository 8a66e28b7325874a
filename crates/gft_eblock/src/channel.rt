//! A reader of one data connection.
//!
//! The states, and what leads from one to the next:
//!
//! | State | Behind | Next |
//! |---|---|---|
//! | `Header` | a header with a count | `Data` |
//! | | a header with EOF and EOD | `EodWaits` |
//! | | a header with EOD alone | `Done` |
//! | | a header with none of them, or EOF | `Header` |
//! | | a bad header | `Failed` |
//! | `Data` | the block's last byte | `EodWaits` if its header had EOD, else `Header` |
//! | `EodWaits` | the EOD, once told | `Done` |

ghost use Rattle.std.specs.Prelude.{◌≡◌, ℕ, ◌+◌, ◌-◌, ◌^◌, ◌<◌, ◌≤◌, ◌↔◌, min, false};
ghost use Rattle.std.specs.Prelude.{List, [], ◌∷◌, ◌++◌, length, take, drop};
ghost use Rattle.std.specs.Prelude.{IsTrue, IsNone, IsErr, IfOk, IfErr, Some, Err};
ghost use Rattle.gft_eblock.specs.Arrival.{Bad, Refusal};
ghost use Rattle.gft_eblock.specs.declared.bad_block.BadBlock.{BadBlock};
ghost use Rattle.gft_eblock.specs.Header.{is_bad};
ghost use Rattle.gft_eblock.specs.Arrivals.{arrivals, blocks_from, good_block};
ghost use Rattle.gft_eblock.specs.Channel.{HasFailed, IsDone, IsReading, IsSoundState};
ghost use Rattle.gft_eblock.specs.Channel.{to_come, to_come_in, wanted};
ghost use Rattle.gft_eblock.specs.Feeding.{Advances, Fails, IsEventOf, event_arrivals};

use crate::bad_block::BadBlock;
use crate::event::{Event, Step};
use crate::flags::Flags;
use crate::header::{Header, decode};
use crate::{HEADER_LEN, MAX_BYTES};
use arrayvec::ArrayVec;
use gft_base::LIMIT;
use std::marker::Model;

/// What the next byte of a channel is.
#[derive(Clone, Copy, Debug)]
pub enum State {
    /// A byte of a header.
    Header,
    /// A byte of data, which arrives at `offset`; `left` bytes of the block are to come.
    Data { offset: u64, left: u64, eod: bool },
    /// None: an EOD is to be told.
    EodWaits,
    /// None: the EOD was told.
    Done,
    /// None: this block was refused.
    Failed(BadBlock),
}

/// A reader of one data connection, which takes its bytes in any pieces (GFD.20, extended block mode).
///
/// `taken`, `wants` and `is_done` look; `feed` takes bytes and tells what they bring.
#[derive(Drop)]
pub struct Channel {
    shift: u64,
    taken: u64,
    header: ArrayVec<u8, HEADER_LEN>,
    state: State,
}

impl Model for Channel {
    ghost use Rattle.gft_eblock.specs.Channel.{Reader, IsSoundReader};

    ghost Value = { Reader };

    ghost view = { λ c.
        record { shift = c.shift; taken = c.taken; header = c.header.items; state = c.state } };

    ghost invariant = { λ c.
        IsSoundReader
        (record { shift = c.shift; taken = c.taken; header = c.header.items; state = c.state }) };
}

impl Channel {
    /// A channel whose offsets have `shift` added, before its first byte.
    pub fn new(shift: u64) -> Self
        requires { shift ≤ LIMIT }
        ensures taken { result.taken ≡ 0 }
        ensures wanted { wanted result ≡ HEADER_LEN }
        ensures not_done { ¬ IsDone result }
        ensures to_come { (stream : List ℕ) → to_come result stream ≡ arrivals shift stream }
    {
        Channel {
            shift,
            taken: 0,
            header: ArrayVec::new(),
            state: State::Header,
        }
    }

    /// How many bytes were taken.
    pub fn taken(&self) -> u64
        ensures taken { result ≡ self.now.taken }
        ensures bound { result ≤ MAX_BYTES }
    {
        self.taken
    }

    /// Whether the EOD was told.
    pub fn is_done(&self) -> bool
        ensures { IsTrue result ↔ IsDone self.now }
    {
        matches!(self.state, State::Done)
    }

    /// How many bytes there are up to the end of this header, or of this block's data: 0 if the
    /// channel is done or has failed, or an EOD is to be told before a byte is taken.
    ///
    /// Whoever reads no more than this reads no byte behind an EOD or a bad header.
    pub fn wants(&self) -> u64
        ensures wanted { result ≡ wanted self.now }
        ensures some { IsReading self.now.state → 0 < result }
    {
        match self.state {
            State::Header => (HEADER_LEN - self.header.len()) as u64,
            State::Data { left, .. } => left,
            _ => 0,
        }
    }

    /// Takes bytes from the front of the piece, up to one event.
    ///
    /// Hand in what is left until no event comes. After `Eod` the channel is done, and can't be fed. A
    /// bad block comes where the last byte of its header was taken, and from then on each call gives
    /// it again and takes nothing.
    pub fn feed<'a>(&mut self, piece: &'a [u8]) -> Result<Step<'a>, BadBlock>
        requires not_done { ¬ IsDone self.old }
        requires room { self.old.taken + length piece.now ≤ MAX_BYTES }
        ensures ok { IfOk result (λ step. Advances self.old piece.now step self.new) }
        ensures whole { IfOk result (λ step. IsNone step.event → step.used ≡ length piece.now) }
        ensures wanted { IfOk result (λ step.
            length piece.now ≤ wanted self.old → step.used ≡ length piece.now) }
        ensures waiting { IfOk result (λ step.
            wanted self.old ≡ 0 → (step.used ≡ 0) × (step.event ≡ Some Event.Eod)) }
        ensures bad { IfErr result (λ bad. Fails self.old piece.now bad self.new) }

        // A bad block that comes before any event is refused.
        ensures refused { (refused : Refusal) →
            to_come self.old piece.now ≡ Bad refused ∷ [] → IsErr result }

        // A channel that failed answers the same from then on, and takes nothing.
        ensures again { (bad : BadBlock) →
            HasFailed self.old bad → (result ≡ Err bad) × (self.new ≡ self.old) }
    {
        let mut used = 0;
        loop {
            let step = self.step(&piece[used..])?;
            used += step.used;
            if step.event.is_some() || used == piece.len() {
                return Ok(Step {
                    used,
                    event: step.event,
                });
            }
        }
    }

    /// Takes the bytes of one header, or of one piece of data.
    fn step<'a>(&mut self, piece: &'a [u8]) -> Result<Step<'a>, BadBlock>
        requires not_done { ¬ IsDone self.old }
        requires room { self.old.taken + length piece.now ≤ MAX_BYTES }
        ensures ok { IfOk result (λ step. Advances self.old piece.now step self.new) }
        ensures progress { IfOk result (λ step.
            IsNone step.event → 0 < length piece.now → 0 < step.used) }
        ensures wanted { IfOk result (λ step.
            length piece.now ≤ wanted self.old → step.used ≡ length piece.now) }
        ensures waiting { IfOk result (λ step.
            wanted self.old ≡ 0 → (step.used ≡ 0) × (step.event ≡ Some Event.Eod)) }
        ensures bad { IfErr result (λ bad. Fails self.old piece.now bad self.new) }
        ensures again { (bad : BadBlock) →
            HasFailed self.old bad → (result ≡ Err bad) × (self.new ≡ self.old) }
    {
        match self.state {
            State::Header => self.take_header(piece),
            State::Data { offset, left, eod } => {
                let (step, state) = take_data(piece, offset, left, eod);
                self.taken += step.used as u64;
                self.state = state;
                Ok(step)
            }
            State::EodWaits => {
                self.state = State::Done;
                Ok(Step {
                    used: 0,
                    event: Some(Event::Eod),
                })
            }
            State::Done => unreachable!(),
            State::Failed(bad) => Err(bad),
        }
    }

    /// Takes bytes of a header, and opens its block behind the last of them.
    fn take_header<'a>(&mut self, piece: &'a [u8]) -> Result<Step<'a>, BadBlock>
        requires header { self.old.state ≡ State.Header }
        requires room { self.old.taken + length piece.now ≤ MAX_BYTES }
        ensures ok { IfOk result (λ step. Advances self.old piece.now step self.new) }
        ensures progress { IfOk result (λ step. 0 < length piece.now → 0 < step.used) }
        ensures wanted { IfOk result (λ step.
            length piece.now + length self.old.header ≤ HEADER_LEN → step.used ≡ length piece.now) }
        ensures bad { IfErr result (λ bad. Fails self.old piece.now bad self.new) }
    {
        let place = self.taken - self.header.len() as u64;
        let used = gather(&mut self.header, piece);
        self.taken += used as u64;
        if self.header.len() < HEADER_LEN {
            return Ok(Step { used, event: None });
        }
        let header = decode(&self.header);
        self.header.clear();
        if header.is_bad(self.shift) {
            let bad = BadBlock::new(place, &header);
            self.state = State::Failed(bad);
            return Err(bad);
        }
        let (event, state) = open_block(&header, self.shift);
        self.state = state;
        Ok(Step { used, event })
    }
}

/// Takes bytes of a header, up to its end, and tells how many.
fn gather(header: &mut ArrayVec<u8, HEADER_LEN>, piece: &[u8]) -> usize
    ensures used { result ≡ min (HEADER_LEN - length header.old.items) (length piece.now) }
    ensures gathered { header.new.items ≡ header.old.items ++ take result piece.now }
    ensures size { length header.new.items ≡ length header.old.items + result }
{
    let used = (HEADER_LEN - header.len()).min(piece.len());
    let _ = header.try_extend_from_slice(&piece[..used]);
    used
}

/// Takes the data of a block that stands at the front of the piece, and gives what comes behind it.
fn take_data<'a>(piece: &'a [u8], offset: u64, left: u64, eod: bool) -> (Step<'a>, State)
    requires some_left { 0 < left }
    requires in_range { offset + left ≤ LIMIT }
    ensures used { result.0.used ≤ length piece.now }
    ensures progress { 0 < length piece.now → 0 < result.0.used }
    ensures wanted { length piece.now ≤ left → result.0.used ≡ length piece.now }
    ensures sound { (taken : ℕ) → IsSoundState result.1 taken [] }
    ensures event { IsEventOf result.0.event result.1 [] }
    ensures carried { (shift taken : ℕ) (later : List ℕ) →
        to_come_in (State.Data offset left eod) shift taken [] (take result.0.used piece.now ++ later)
        ≡ event_arrivals result.0.event ++ to_come_in result.1 shift (taken + result.0.used) [] later }
{
    let len = left.min(piece.len() as u64);
    let used = len as usize;
    if len == 0 {
        let step = Step { used, event: None };
        return (step, State::Data { offset, left, eod });
    }
    let bytes = &piece[..used];
    let step = Step {
        used,
        event: Some(Event::Piece { offset, bytes }),
    };
    if len < left {
        let rest = State::Data {
            offset: offset + len,
            left: left - len,
            eod,
        };
        return (step, rest);
    }
    (step, if eod { State::EodWaits } else { State::Header })
}

/// What a good header tells at once, and what comes behind it.
fn open_block<'a>(header: &Header, shift: u64) -> (Option<Event<'a>>, State)
    requires { is_bad shift header.now ≡ false }
    ensures sound { (taken : ℕ) → IsSoundState result.1 taken [] }
    ensures event { IsEventOf result.0 result.1 [] }
    ensures carried { (taken : ℕ) (later : List ℕ) →
        good_block shift header.now later
        (blocks_from shift (taken + header.now.count) (drop header.now.count later))
        ≡ event_arrivals result.0 ++ to_come_in result.1 shift taken [] later }
{
    let flags = Flags(header.flags);
    let eod = flags.is_eod();
    if flags.is_eof() {
        let total = header.offset;
        let state = if eod { State::EodWaits } else { State::Header };
        (Some(Event::Eof { total }), state)
    } else if header.count > 0 {
        let offset = shift + header.offset;
        let left = header.count;
        (None, State::Data { offset, left, eod })
    } else if eod {
        (Some(Event::Eod), State::Done)
    } else {
        (None, State::Header)
    }
}
