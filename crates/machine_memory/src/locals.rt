// Entering and leaving: the frames by depth.
ghost use Rattle.std.specs.Prelude.{◌≡◌, OnOk};
ghost use Rattle.machine_memory.specs.Frames.{layout_in, started};

use crate::frame::Frame;
use crate::layout::Layout;
use crate::memory::MachineMemory;
use std::alloc::AllocError;

#[tactic(auto, unfolding(crate::specs::Memory::blocks_of, crate::specs::Memory::layouts_of, crate::specs::Memory::frame_at, crate::specs::Memory::live_count))]
impl MachineMemory {
    ghost use Rattle.std.specs.Prelude.{◌≡◌, ◌+◌, ◌<◌, ◌≤◌, ℕ, length, OnErr, OnOk};
    ghost use Rattle.block_memory.specs.Blocks.{IsFree, with_frame, without_frames};
    ghost use Rattle.machine_memory.specs.Memory.{blocks_of, frame_at, Keeps, layout_at, layouts_of, live_count, Stands};

    /// Makes the variables of a function that is entered at this depth, each 0 or null. No local of
    /// this depth or a greater one may be live. Where memory is wanting the blocks stay as they are.
    #[inline(always)]
    pub fn enter(&mut self, depth: u32, layout: u32) -> Result<(), AllocError>
        requires { IsFree (blocks_of self.old) depth }
        ensures ok { OnOk result (blocks_of self.new ≡ with_frame (blocks_of self.old) depth (layout_at self.old layout).shapes) }
        ensures stands { OnOk result (Stands self.new depth layout) }
        ensures below { OnOk result ((d : ℕ) → d < depth → d < live_count self.old → frame_at self.new d ≡ frame_at self.old d) }
        ensures kept { OnOk result ((d number : ℕ) → d < depth → Stands self.old d number → Stands self.new d number) }
        ensures err { OnErr result (blocks_of self.new ≡ blocks_of self.old) }
        ensures layouts { layouts_of self.new ≡ layouts_of self.old }
    {
        self.leave(depth);
        self.reach(depth as usize)?;
        self.begin(layout as usize)
    }

    /// Ends the variables of this depth, and of greater ones if there are any.
    #[inline(always)]
    pub fn leave(&mut self, depth: u32)
        ensures blocks { blocks_of self.new ≡ without_frames (blocks_of self.old) depth }
        ensures live { live_count self.new ≤ depth }
        ensures layouts { layouts_of self.new ≡ layouts_of self.old }
        ensures below { (d : ℕ) → d < depth → frame_at self.new d ≡ frame_at self.old d }
    {
        let depth = depth as usize;
        if depth < self.live {
            self.live = depth;
        }
    }

    // Adds frames without variables up to this depth, if it lies further on.
    #[inline(always)]
    fn reach(&mut self, depth: usize) -> Result<(), AllocError>
        requires { live_count self.old ≤ depth }
        ensures blocks { blocks_of self.new ≡ blocks_of self.old }
        ensures live { OnOk result (live_count self.new ≡ depth) }
        ensures below { (d : ℕ) → d < live_count self.old → frame_at self.new d ≡ frame_at self.old d }
        ensures layouts { layouts_of self.new ≡ layouts_of self.old }
    {
        if self.live < depth {
            self.skip_to(depth)
        } else {
            Ok(())
        }
    }

    // Adds frames without variables up to this depth.
    #[inline(never)]
    fn skip_to(&mut self, depth: usize) -> Result<(), AllocError>
        requires { live_count self.old ≤ depth }
        ensures blocks { blocks_of self.new ≡ blocks_of self.old }
        ensures live { OnOk result (live_count self.new ≡ depth) }
        ensures below { (d : ℕ) → d < live_count self.old → frame_at self.new d ≡ frame_at self.old d }
        ensures layouts { layouts_of self.new ≡ layouts_of self.old }
    {
        while self.live < depth {
            self.begin(usize::MAX)?;
        }
        Ok(())
    }

    // Adds the frame of a function, or one without variables where the number is no layout's.
    #[inline(always)]
    fn begin(&mut self, number: usize) -> Result<(), AllocError>
        ensures ok { OnOk result (blocks_of self.new ≡ with_frame (blocks_of self.old) (live_count self.old) (layout_at self.old number).shapes) }
        ensures live { OnOk result (live_count self.new ≡ live_count self.old + 1) }
        ensures stands { OnOk result (Stands self.new (live_count self.old) number) }
        ensures below { (d : ℕ) → d < live_count self.old → frame_at self.new d ≡ frame_at self.old d }
        ensures err { OnErr result (blocks_of self.new ≡ blocks_of self.old) }
        ensures layouts { layouts_of self.new ≡ layouts_of self.old }
    {
        let depth = self.live;
        self.make_room()?;
        start(&mut self.frames[depth], &self.layouts, number)?;
        self.live = depth + 1;
        Ok(())
    }

    // Makes the vectors of one frame more, if those of all are in use.
    #[inline(always)]
    fn make_room(&mut self) -> Result<(), AllocError>
        ensures room { OnOk result (self.new.live < length self.new.frames.items) }
        ensures keeps { Keeps self.old self.new }
    {
        if self.live == self.frames.len() {
            self.add_frame()
        } else {
            Ok(())
        }
    }

    // The same where those of all are.
    #[inline(never)]
    fn add_frame(&mut self) -> Result<(), AllocError>
        requires { self.old.live ≡ length self.old.frames.items }
        ensures room { OnOk result (self.new.live < length self.new.frames.items) }
        ensures keeps { Keeps self.old self.new }
    {
        self.frames.push(Frame::new(self.alloc))?;
        Ok(())
    }
}

// Makes it the frame of a function, or one without variables where the number is no layout's.
#[inline(always)]
fn start(frame: &mut Frame, layouts: &[Layout], number: usize) -> Result<(), AllocError>
    ensures { OnOk result (frame.new ≡ started (layout_in layouts.now number) number frame.old.cells) }
{
    if number < layouts.len() {
        frame.start(number, &layouts[number])
    } else {
        frame.start_bare(number)
    }
}
