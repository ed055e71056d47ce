// A text in memory. Its calls are numbered from 1 and fail where their number is listed, and a put
// moves at most a step, so a test can bring about each outcome of a put.
ghost use Rattle.std.specs.Prelude.{◌≡◌, ℕ, ◌<◌, ◌≤◌, ◌↔◌, List, [], Option, Some, Err, IfOk, OnErr, MatchResult, IsTrue, true, false, length, take, min};
ghost use Rattle.syn_outside.specs.Faults.{Rose, UnlessFailed, raised};
ghost use Rattle.syn_outside.specs.Texts.{PutsSome};
ghost use Rattle.syn_outside.specs.declared.traits.Trouble.{Trouble};
ghost use Rattle.syn_outside.specs.Memory.{MemoryText, is_to_fail, after_put, after_putting};

use crate::traits::{Sink, Trouble};
use std::marker::Model;

/// A text in memory, with faults at will.
#[derive(Drop)]
pub struct MemSink {
    text: Vec<u8>,
    step: usize,
    fail: Vec<u64>,
    calls: u64,
    faults: u64,
}

impl Model for MemSink {
    ghost Value = { MemoryText };

    ghost view = { λ s. record {
      text = s.text.items;
      step = s.step;
      fail = s.fail.items;
      calls = s.calls;
      faults = s.faults;
    } };

    ghost invariant = { λ s. 0 < s.step };
}

impl MemSink {
    /// An empty text, of which a put moves at most `step` bytes and the puts numbered in `fail`,
    /// from 1, fail.
    pub fn new(step: usize, fail: Vec<u64>) -> MemSink
        requires { 0 < step }
        ensures { result ≡ record { text = []; step = step; fail = fail.items; calls = 0; faults = 0 } }
    {
        let text = Vec::new(*fail.allocator());
        MemSink {
            text,
            step,
            fail,
            calls: 0,
            faults: 0,
        }
    }

    /// The text so far.
    pub fn text(&self) -> &[u8]
        ensures { result.now ≡ self.now.text }
    {
        self.text.as_slice()
    }

    // Counts a call, and says whether it is one that fails.
    fn fails(&mut self) -> bool
        ensures answer { result ≡ is_to_fail self.old.fail self.old.calls }
        ensures counts { self.new ≡ record self.old { calls = raised self.old.calls } }
    {
        self.calls = self.calls.saturating_add(1);
        self.fail.contains(&self.calls)
    }
}

impl Sink for MemSink {
    ghost text = { λ s. Some s.text };

    ghost faults = { λ s. s.faults };

    fn put(&mut self, piece: &[u8]) -> Result<usize, Trouble>
        ensures text { IfOk result (PutsSome (Some self.old.text) (Some self.new.text) piece.now) }
        ensures err { OnErr result (Some self.new.text ≡ Some self.old.text) }
        ensures later { self.old.faults ≤ self.new.faults }
        ensures cause { result ≡ Err Trouble.Failed → Rose self.old.faults self.new.faults }
        ensures quiet { UnlessFailed result (self.new.faults ≡ self.old.faults) }

        // Which puts fail, and how many bytes move.
        ensures moved { IfOk result (λ k. k ≡ min self.old.step (length piece.now)) }
        ensures after { IfOk result (λ k. self.new ≡ after_putting self.old (take k piece.now)) }
        ensures stays { OnErr result (self.new ≡ after_put self.old) }
        ensures failed { (result ≡ Err Trouble.Failed) ↔ IsTrue (is_to_fail self.old.fail self.old.calls) }
    {
        if self.fails() {
            self.faults = self.faults.saturating_add(1);
            return Err(Trouble::Failed);
        }
        let count = self.step.min(piece.len());
        match self.text.extend_from_slice(&piece[..count]) {
            Ok(()) => Ok(count),
            Err(_) => Err(Trouble::NoMemory),
        }
    }
}
