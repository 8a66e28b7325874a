ghost use Rattle.std.specs.Prelude.{◌≡◌, ◌+◌, ◌<◌, ◌≤◌, ℕ, List, [], ◌++◌, false, IfSome, MatchOption, length, take};
ghost use Rattle.std.specs.Prelude.{vec_capacity, vec_len};
ghost use Rattle.gft_outside.specs.Words.{EventFits};
ghost use Rattle.gft_generated.specs.Lanes.{Comes, IsLiveAt};

use crate::stream::Stream;
use gft_base::Failed;
use gft_outside::{Lane, LaneEvent};
use std::marker::Model;

/// How many bytes of a data connection come at one stretch.
const PIECE_LEN: usize = 65_536;

/// A data connection of a generated lane.
#[derive(Drop)]
pub(crate) struct Connection {
    pub(crate) stream: Stream,
    pub(crate) is_live: bool,
}

impl Connection {
    /// Gives what comes next, as many bytes as the buffer takes, and tells how many. It ends where that is none.
    fn give(&mut self, buf: &mut [u8]) -> usize
        ensures count { result ≤ length buf.old }
        ensures given { self.old.stream ≡ take result buf.new ++ self.new.stream }
        ensures ends { result ≡ 0 → self.new.is_live ≡ false }
        ensures goes_on { 0 < result → self.new.is_live ≡ self.old.is_live }
    {
        let count = self.stream.give(buf);
        if count == 0 {
            self.is_live = false;
        }
        count
    }
}

/// A lane whose data connections carry the generated file: each is opened, then a piece of 65,536 bytes of each
/// comes in turn, and each ends when all that it carries has come. It holds no byte of a piece: each is made
/// in the buffer in which it is given. No call of it fails.
#[derive(Drop)]
pub struct GeneratedLane {
    /// those that weren't opened yet, the next one last
    waiting: Vec<Stream>,
    /// those that were opened, by their numbers
    opened: Vec<Connection>,
    /// the number of the one whose turn it is, and how much of its piece is left
    turn: usize,
    piece_left: usize,
    is_done: bool,
}

impl Model for GeneratedLane {
    ghost use Rattle.std.specs.Prelude.{◌+◌, ◌≤◌, ◌<◌, vec_capacity, vec_len};
    ghost use Rattle.gft_generated.specs.Lanes.{OnLane};

    ghost Value = { OnLane };

    ghost view = { λ l. record {
      waiting = l.waiting.items;
      opened = l.opened.items;
      turn = l.turn;
      piece_left = l.piece_left;
      is_done = l.is_done;
    } };

    ghost invariant = { λ l. (vec_len l.waiting + vec_len l.opened ≤ vec_capacity l.opened)
        × (vec_len l.waiting + vec_len l.opened ≤ 64) × (l.turn ≤ vec_len l.opened) × (0 < l.piece_left) };
}

impl GeneratedLane {
    /// A lane whose data connections carry these streams, the last one as channel 0.
    pub(crate) fn new(waiting: Vec<Stream>, room: Vec<Connection>) -> GeneratedLane
        requires few { vec_len waiting ≤ 64 }
        requires room { (room.items ≡ []) × (vec_len waiting ≤ vec_capacity room) }
        ensures { result ≡ record {
          waiting = waiting.items;
          opened = [];
          turn = 0;
          piece_left = PIECE_LEN;
          is_done = false;
        } }
    {
        GeneratedLane {
            waiting,
            opened: room,
            turn: 0,
            piece_left: PIECE_LEN,
            is_done: false,
        }
    }

    /// Opens the next data connection, if one waits.
    fn open_next(&mut self) -> Option<LaneEvent>
        ensures { MatchOption result (self.new ≡ self.old) (λ event. (buf : List ℕ)
            → Comes event buf self.old self.new × EventFits event (length buf)) }
    {
        let Some(stream) = self.waiting.pop() else {
            return None;
        };
        let number = self.opened.len() as u32;
        self.opened.push_reserved(Connection {
            stream,
            is_live: true,
        });
        Some(LaneEvent::Opened(number))
    }

    /// The number of the live data connection whose turn it is or comes first.
    fn next_live(&self) -> Option<usize>
        ensures { IfSome result (IsLiveAt self.now.opened) }
    {
        let count = self.opened.len();
        for step in 0..count {
            let number = (self.turn + step) % count;
            if self.opened[number].is_live {
                return Some(number);
            }
        }
        None
    }

    /// What comes on this data connection: more of its piece, or its end.
    fn take_turn(&mut self, number: usize, buf: &mut [u8]) -> LaneEvent
        requires live { IsLiveAt self.old.opened number }
        ensures comes { Comes result buf.new self.old self.new }
        ensures fits { EventFits result (length buf.new) }
    {
        let left = self.left_of(number);
        let most = left.min(buf.len());
        let count = self.opened[number].give(&mut buf[..most]);
        if count == 0 {
            return LaneEvent::Ended(number as u32);
        }
        let (turn, piece_left) = next_turn(number, left - count);
        self.turn = turn;
        self.piece_left = piece_left;
        LaneEvent::Bytes {
            channel: number as u32,
            count,
        }
    }

    /// How much is left of the piece of this data connection.
    fn left_of(&self, number: usize) -> usize
        ensures { 0 < result }
    {
        if number == self.turn {
            self.piece_left
        } else {
            PIECE_LEN
        }
    }
}

/// Whose turn it is behind bytes of this data connection of whose piece so much is left, and how much is left of
/// the piece of that one.
fn next_turn(number: usize, left: usize) -> (usize, usize)
    requires { number < 64 }
    ensures turn { result.0 ≤ number + 1 }
    ensures left { 0 < result.1 }
{
    if left == 0 {
        (number + 1, PIECE_LEN)
    } else {
        (number, left)
    }
}

impl Lane for GeneratedLane {
    ghost use Rattle.gft_generated.specs.Lanes.{generated_lane_state};

    ghost state = { λ lane. generated_lane_state lane };

    fn next(&mut self, buf: &mut [u8]) -> Result<LaneEvent, Failed> {
        if self.is_done {
            return Ok(LaneEvent::Done);
        }
        if let Some(event) = self.open_next() {
            return Ok(event);
        }
        match self.next_live() {
            Some(number) => Ok(self.take_turn(number, buf)),
            None => {
                self.is_done = true;
                Ok(LaneEvent::Done)
            }
        }
    }
}
