ghost use Rattle.std.specs.Prelude.{◌≡◌, [], ◌∷◌, ◌++◌, length, slice_get, take, MatchOption, OnOk, OnErr};
ghost use Rattle.std.specs.Option.{option_copied};

use crate::hops::Frame;
use ml_base::NoMemory;
use std::alloc::Global;
use std::marker::Model;

/// A list of frames, the top last, which contracts see as the list of its frames.
#[derive(Debug, Drop)]
pub struct FrameList {
    frames: Vec<Frame>,
}

impl Model for FrameList {
    ghost use Rattle.std.specs.Prelude.{List};
    ghost use Rattle.circuit_spec.specs.declared.hops.Frame.{Frame};

    ghost Value = { List Frame };

    ghost view = { λ list. list.frames.items };
}

impl FrameList {
    pub fn new(alloc: Global) -> FrameList
        ensures { result ≡ [] }
    {
        FrameList {
            frames: Vec::new(alloc),
        }
    }

    pub fn len(&self) -> u64
        ensures { result ≡ length self.now }
    {
        self.frames.len() as u64
    }

    pub fn get(&self, place: u64) -> Option<&Frame>
        ensures { option_copied result ≡ slice_get self.now place }
    {
        self.frames.get(place as usize)
    }

    /// The frames as a slice, the top last.
    pub fn as_slice(&self) -> &[Frame]
        ensures { result.now ≡ self.now }
    {
        self.frames.as_slice()
    }

    /// Puts the frame on top. A refusal changes nothing.
    pub fn push(&mut self, frame: Frame) -> Result<(), NoMemory>
        ensures ok { OnOk result (self.new ≡ self.old ++ frame ∷ []) }
        ensures err { OnErr result (self.new ≡ self.old) }
    {
        match self.frames.push(frame) {
            Ok(()) => Ok(()),
            Err(_) => Err(NoMemory),
        }
    }

    /// Takes the memory for so many frames in all: while there are fewer, a `push` takes none.
    pub fn reserve(&mut self, room: u64) -> Result<(), NoMemory>
        ensures { self.new ≡ self.old }
    {
        let more = (room as usize).saturating_sub(self.frames.len());
        match self.frames.reserve(more) {
            Ok(()) => Ok(()),
            Err(_) => Err(NoMemory),
        }
    }

    /// Takes the top frame off, if there is one.
    pub fn pop(&mut self) -> Option<Frame>
        ensures { MatchOption result ((self.old ≡ []) × (self.new ≡ [])) (λ frame. self.old ≡ self.new ++ frame ∷ []) }
    {
        self.frames.pop()
    }
}
