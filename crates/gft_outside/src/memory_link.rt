ghost use Rattle.std.specs.Prelude.{◌≡◌, ◌≤◌, ◌↔◌, All, IfErr, IfOk, IsTrue, filter, reverse, vec_len};
ghost use Rattle.gft_outside.specs.LaneScripts.{lane_state};
ghost use Rattle.gft_outside.specs.Links.{Dialled, HandsOut, IsDialTo, IsNewLane, IsNewOutLane, NotDialled};
ghost use Rattle.gft_outside.specs.Links.{NotHandedOut, TakesBack, TakesBackOut, more_faults};
ghost use Rattle.gft_outside.specs.MemoryLinks.{DialsBy, ListensBy, TakesIn, TakesOut, has_unused_lane};
ghost use Rattle.gft_outside.specs.MemoryLinks.{has_unused_out, link_state, new_link};
ghost use Rattle.gft_outside.specs.OutLanes.{out_lane_state};

use crate::failing::Failing;
use crate::link::{Dial, Link, LinkError, Listening};
use crate::memory_lane::MemoryLane;
use crate::memory_out_lane::MemoryOutLane;
use gft_base::{Failed, OutOfMemory};
use gft_text::HostPort;
use std::alloc::Global;
use std::marker::Model;
use std::mem;

/// A link in memory, which tells what is to come and what was given back: it hands out the lanes and the
/// dials of its lists, and keeps what is given back. For that it takes its memory when it is made.
#[derive(Drop)]
pub struct MemoryLink {
    lanes: Vec<Listening<MemoryLane>>,
    dials: Vec<Dial<MemoryOutLane>>,
    back_in: Vec<MemoryLane>,
    back_out: Vec<MemoryOutLane>,
    handed_out: u64,
    failing: Failing,
    faults: u64,
}

impl Model for MemoryLink {
    ghost use Rattle.std.specs.Prelude.{◌+◌, ◌≤◌, All, reverse, vec_capacity, vec_len};
    ghost use Rattle.gft_outside.specs.LaneScripts.{LaneList, lane_state};
    ghost use Rattle.gft_outside.specs.Links.{IsNewLane, IsNewOutLane};
    ghost use Rattle.gft_outside.specs.MemoryLinks.{LinkList};
    ghost use Rattle.gft_outside.specs.OutLanes.{OutLaneList, out_lane_state};

    ghost Value = { LinkList };

    ghost view = { λ l. record {
      lanes = l.lanes.items;
      dials = l.dials.items;
      back = reverse l.back_in.items;
      back_out = reverse l.back_out.items;
      handed_out = l.handed_out;
      failing = l.failing;
      faults = l.faults;
    } };

    ghost invariant = { λ l.
        (vec_len l.back_in + l.handed_out + vec_len l.lanes + vec_len l.dials ≤ vec_capacity l.back_in)
        × (vec_len l.back_out + l.handed_out + vec_len l.lanes + vec_len l.dials ≤ vec_capacity l.back_out)
        × All (λ listening. IsNewLane (lane_state listening.lane)) l.lanes.items
        × All (λ dial. IsNewOutLane (out_lane_state dial.out)) l.dials.items };
}

impl MemoryLink {
    /// A link that hands out these lanes and dials, one after another. A lane that was called before is left
    /// out, as is an out lane on which a put was made or that was closed. The calls of `listen` and `dial`
    /// whose number, counted from 1 over both, is in `failing` fail.
    pub fn new(
        alloc: Global,
        lanes: Vec<Listening<MemoryLane>>,
        dials: Vec<Dial<MemoryOutLane>>,
        failing: Vec<u32>,
    ) -> Result<MemoryLink, OutOfMemory>
        ensures { IfOk result (λ link. link ≡ new_link (filter has_unused_lane lanes.items)
            (filter has_unused_out dials.items) failing.items) }
    {
        let lanes = unused_lanes(lanes);
        let dials = unused_dials(dials);
        let room = lanes.len() + dials.len();
        Ok(MemoryLink {
            lanes,
            dials,
            back_in: Vec::with_capacity(alloc, room)?,
            back_out: Vec::with_capacity(alloc, room)?,
            handed_out: 0,
            failing: Failing::new(failing),
            faults: 0,
        })
    }

    /// The lanes that were given back, the first one first.
    pub fn lanes_back(&self) -> &[MemoryLane]
        ensures { self.now.back ≡ reverse result.now }
    {
        &self.back_in
    }

    /// The out lanes that were given back, the first one first.
    pub fn out_lanes_back(&self) -> &[MemoryOutLane]
        ensures { self.now.back_out ≡ reverse result.now }
    {
        &self.back_out
    }

    /// How many lanes and out lanes are handed out.
    pub fn handed_out(&self) -> u64
        ensures { result ≡ self.now.handed_out }
    {
        self.handed_out
    }

    /// How often a call failed, with the faults of what was given back.
    pub fn faults(&self) -> u64
        ensures { result ≡ self.now.faults }
    {
        self.faults
    }
}

impl Link for MemoryLink {
    type In = MemoryLane;

    type Out = MemoryOutLane;

    ghost state = { link_state };

    /// A call that is to fail, or that asks for more lanes than are to come, fails. Memory may be refused.
    fn listen(
        &mut self,
        _alloc: Global,
        stripes: u16,
    ) -> Result<Vec<Listening<MemoryLane>>, LinkError>
        requires { 1 ≤ stripes }
        ensures out { IfOk result (λ lanes. HandsOut (link_state self.old) (link_state self.new) lanes.items) }
        ensures count { IfOk result (λ lanes. vec_len lanes ≡ stripes) }
        ensures new { IfOk result (λ lanes. All (λ listening. IsNewLane (lane_state listening.lane))
            lanes.items) }
        ensures refused { IfErr result (NotHandedOut (link_state self.old) (link_state self.new)) }
        ensures fails { ListensBy stripes result self.old self.new }
    {
        let count = usize::from(stripes);
        if self.failing.begin() || self.lanes.len() < count {
            self.faults = self.faults.saturating_add(1);
            return Err(LinkError::Failed);
        }
        match self.lanes.split_off(count) {
            Ok(later) => {
                self.handed_out += u64::from(stripes);
                Ok(mem::replace(&mut self.lanes, later))
            }
            Err(_) => Err(LinkError::OutOfMemory),
        }
    }

    /// A call that is to fail, or to another address than that of the next dial, fails.
    fn dial(&mut self, at: &HostPort) -> Result<MemoryOutLane, Failed>
        ensures out { IfOk result (λ out. Dialled (link_state self.old) (link_state self.new) (record {
          at = at.now;
          out = out;
        })) }
        ensures new { IfOk result (λ out. IsNewOutLane (out_lane_state out)) }
        ensures refused { IfErr result (λ _. NotDialled (link_state self.old) (link_state self.new)) }
        ensures fails { DialsBy at.now result self.old self.new }
    {
        if self.failing.begin() || !is_next_to(&self.dials, at) {
            self.faults = self.faults.saturating_add(1);
            return Err(Failed);
        }
        self.handed_out += 1;
        Ok(self.dials.remove(0).out)
    }

    fn back_in(&mut self, lane: MemoryLane)
        requires { 1 ≤ self.old.handed_out }
        ensures back { TakesBack (link_state self.old) (link_state self.new) lane lane.faults }
        ensures alone { TakesIn lane self.old self.new }
    {
        self.faults = self.faults.saturating_add(lane.faults());
        self.handed_out -= 1;
        self.back_in.push_reserved(lane);
    }

    fn back_out(&mut self, out: MemoryOutLane)
        requires { 1 ≤ self.old.handed_out }
        ensures back { TakesBackOut (link_state self.old) (link_state self.new) out out.faults }
        ensures alone { TakesOut out self.old self.new }
    {
        self.faults = self.faults.saturating_add(out.faults());
        self.handed_out -= 1;
        self.back_out.push_reserved(out);
    }
}

// The lanes that were not called yet.
fn unused_lanes(mut lanes: Vec<Listening<MemoryLane>>) -> Vec<Listening<MemoryLane>>
    ensures kept { result.items ≡ filter has_unused_lane lanes.items }
    ensures new { All (λ listening. IsNewLane (lane_state listening.lane)) result.items }
{
    lanes.retain(|listening| listening.lane.is_unused());
    lanes
}

// The dials on whose out lane no call was made yet.
fn unused_dials(mut dials: Vec<Dial<MemoryOutLane>>) -> Vec<Dial<MemoryOutLane>>
    ensures kept { result.items ≡ filter has_unused_out dials.items }
    ensures new { All (λ dial. IsNewOutLane (out_lane_state dial.out)) result.items }
{
    dials.retain(|dial| dial.out.is_unused());
    dials
}

// Whether the next dial is one to this address.
fn is_next_to(dials: &[Dial<MemoryOutLane>], at: &HostPort) -> bool
    ensures { IsTrue result ↔ IsDialTo at.now dials.now }
{
    match dials.first() {
        Some(dial) => dial.at == *at,
        None => false,
    }
}
