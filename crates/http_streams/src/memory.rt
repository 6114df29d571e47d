//! Devices over memory, which read or accept pieces of at most given sizes and may fail at one given call.
ghost use Rattle.std.specs.Prelude.{◌≡◌, ◌⊎◌, ◌<◌, Some, None, IfSome, []};
ghost use Rattle.http_streams.specs.Memory.{AcceptsByPlan, CountsOneFailure, Delivers, FailsByPlan, MakesCall};
ghost use Rattle.http_streams.specs.Memory.{next_piece};

use crate::devices::{DeviceFailed, Sink, Source};
use std::alloc::Global;
use std::marker::Model;

/// A plan of how many bytes each call of a device may move, and which call fails. The plan counts the calls.
#[derive(Drop)]
pub struct Plan<'a> {
    pieces: &'a [usize],
    fails_at: Option<u64>,
    calls: u64,
}

impl<'a> Model for Plan<'a> {
    ghost use Rattle.http_streams.specs.Memory.{Planned};

    ghost Value = { Planned };

    ghost view = { λ p. record { pieces = p.pieces.now; fails_at = p.fails_at; calls = p.calls } };
}

impl<'a> Plan<'a> {
    /// Creates a plan; no call has been made.
    ///
    /// `pieces` lists, for each call, the most bytes that the call moves: the last number applies from then on, an
    /// empty list has no limit, and 0 counts as 1. `fails_at` is the number, from 0, of the call that fails, if one
    /// does; this call uses up no piece.
    pub fn new(pieces: &'a [usize], fails_at: Option<u64>) -> Plan<'a>
        ensures { result ≡ record { pieces = pieces.entry.now; fails_at = fails_at; calls = 0 } }
    {
        Plan {
            pieces,
            fails_at,
            calls: 0,
        }
    }

    /// Counts a call, and returns the most bytes that the call moves, at least one; `None` if the call fails.
    fn next_call(&mut self) -> Option<usize>
        ensures moves { IfSome result (λ n. (n ≡ next_piece self.old.pieces) × MakesCall self.old self.new) }
        ensures some { IfSome result (λ n. 0 < n) }
        ensures fails { result ≡ None → FailsByPlan self.old self.new }
    {
        let call = self.calls;
        self.calls = call.saturating_add(1);
        if self.fails_at == Some(call) {
            return None;
        }
        match self.pieces {
            [] => Some(usize::MAX),
            [piece] => Some((*piece).max(1)),
            [piece, rest @ ..] => {
                self.pieces = rest;
                Some((*piece).max(1))
            }
        }
    }
}

/// A reader over bytes.
#[derive(Drop)]
pub struct Fed<'a> {
    rest: &'a [u8],
    plan: Plan<'a>,
    failures: u64,
}

impl<'a> Model for Fed<'a> {
    ghost use Rattle.http_streams.specs.Memory.{DeviceInMemory};

    ghost Value = { DeviceInMemory };

    ghost view = { λ f. record { bytes = f.rest.now; plan = f.plan; failures = f.failures } };
}

impl<'a> Fed<'a> {
    /// Creates a reader of all these bytes.
    pub fn new(bytes: &'a [u8], plan: Plan<'a>) -> Fed<'a>
        ensures { result ≡ record { bytes = bytes.entry.now; plan = plan.entry; failures = 0 } }
    {
        Fed {
            rest: bytes,
            plan,
            failures: 0,
        }
    }

    /// Returns the unread bytes.
    pub fn left(&self) -> &[u8]
        ensures { result.now ≡ self.now.bytes }
    {
        self.rest
    }
}

impl Source for Fed<'_> {
    ghost left = { λ s. Some s.bytes };

    ghost failed = { λ s. s.failures };

    ghost reads = { Delivers };

    ghost fails = { λ old new. CountsOneFailure old new × FailsByPlan old.plan new.plan };

    fn read(&mut self, buf: &mut [u8]) -> Result<usize, DeviceFailed> {
        let Some(most) = self.plan.next_call() else {
            self.failures = self.failures.saturating_add(1);
            return Err(DeviceFailed);
        };
        let n = most.min(self.rest.len()).min(buf.len());
        let (front, rest) = self.rest.split_at(n);
        buf[..n].copy_from_slice(front);
        self.rest = rest;
        Ok(n)
    }

    fn failures(&self) -> u64 {
        self.failures
    }
}

/// A writer into memory. A failed allocation counts as a failure.
#[derive(Drop)]
pub struct Kept<'a> {
    bytes: Vec<u8>,
    plan: Plan<'a>,
    failures: u64,
}

impl<'a> Model for Kept<'a> {
    ghost use Rattle.http_streams.specs.Memory.{DeviceInMemory};

    ghost Value = { DeviceInMemory };

    ghost view = { λ k. record { bytes = k.bytes.items; plan = k.plan; failures = k.failures } };
}

impl<'a> Kept<'a> {
    /// Creates a writer that has accepted nothing yet.
    pub fn new(alloc: Global, plan: Plan<'a>) -> Kept<'a>
        ensures { result ≡ record { bytes = []; plan = plan.entry; failures = 0 } }
    {
        Kept {
            bytes: Vec::new(alloc),
            plan,
            failures: 0,
        }
    }

    /// Returns the accepted bytes.
    pub fn bytes(&self) -> &[u8]
        ensures { result.now ≡ self.now.bytes }
    {
        self.bytes.as_slice()
    }
}

impl Sink for Kept<'_> {
    ghost holds = { λ s. Some s.bytes };

    ghost failed = { λ s. s.failures };

    ghost writes = { AcceptsByPlan };

    // A call fails by its plan, or because an allocation failed.
    ghost fails = { λ old new. CountsOneFailure old new
        × (FailsByPlan old.plan new.plan ⊎ MakesCall old.plan new.plan) };

    fn write(&mut self, bytes: &[u8]) -> Result<usize, DeviceFailed> {
        if let Some(most) = self.plan.next_call() {
            let n = most.min(bytes.len());
            if self.bytes.extend_from_slice(&bytes[..n]).is_ok() {
                return Ok(n);
            }
        }
        self.failures = self.failures.saturating_add(1);
        Err(DeviceFailed)
    }

    fn failures(&self) -> u64 {
        self.failures
    }
}
