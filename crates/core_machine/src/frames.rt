// The active functions, one on another.
use crate::frame::Frame;
use std::alloc::{AllocError, Global};
use std::marker::Model;

/// The active functions. Contracts see their list, the innermost first.
#[derive(Drop)]
pub(crate) struct Frames {
    // The innermost last.
    frames: Vec<Frame>,
}

impl Model for Frames {
    ghost use Rattle.std.specs.Prelude.{List};
    ghost use Rattle.core_machine.specs.declared.frame.Frame.{Frame};

    ghost Value = { List Frame };

    ghost use Rattle.std.specs.Prelude.{reverse};

    ghost view = { λ f. reverse f.frames.items };
}

impl Frames {
    ghost use Rattle.std.specs.Prelude.{◌≡◌, [], ◌∷◌, length, MatchOption, OnErr, OnOk};
    ghost use Rattle.core_machine.specs.Live.{rest_of, standing};

    /// No function is active.
    pub(crate) fn new(alloc: Global) -> Frames
        ensures { result ≡ [] }
    {
        Frames {
            frames: Vec::new(alloc),
        }
    }

    /// The innermost of them.
    #[inline(always)]
    pub(crate) fn innermost(&self) -> Option<Frame>
        ensures { MatchOption result (self.now ≡ []) (λ frame. self.now ≡ frame ∷ rest_of self.now) }
    {
        self.frames.as_slice().last().copied()
    }

    /// How many there are.
    #[inline(always)]
    pub(crate) fn count(&self) -> usize
        ensures { result ≡ length self.now }
    {
        self.frames.len()
    }

    /// Adds one that is the innermost from now on.
    #[inline(always)]
    pub(crate) fn push(&mut self, frame: Frame) -> Result<(), AllocError>
        ensures ok { OnOk result (self.new ≡ frame ∷ self.old) }
        ensures err { OnErr result (self.new ≡ self.old) }
    {
        if self.frames.len() >= self.frames.capacity() {
            self.frames.reserve(1)?;
        }
        self.frames.push_reserved(frame);
        Ok(())
    }

    /// Takes the innermost one away.
    #[inline(always)]
    pub(crate) fn pop(&mut self)
        ensures { self.new ≡ rest_of self.old }
    {
        let _ = self.frames.pop();
    }

    /// The innermost one goes on there.
    #[inline(always)]
    pub(crate) fn go(&mut self, at: usize)
        ensures { self.new ≡ standing at self.old }
    {
        if let Some(last) = self.frames.len().checked_sub(1) {
            self.frames[last].at = at;
        }
    }
}
