// Making a variable as it is when its declaration is reached.
use crate::flat::Flat;
use crate::memory::MachineMemory;
use crate::place::Found;
use crate::variables::find_in;

#[tactic(auto, unfolding(crate::specs::Memory::blocks_of, crate::specs::Memory::layouts_of, crate::specs::Memory::frame_at, crate::specs::Memory::live_count))]
impl MachineMemory {
    ghost use Rattle.std.specs.Prelude.{◌≡◌, ◌<◌, ℕ, true, length, map, slice_index_or};
    ghost use Rattle.block_memory.specs.declared.cell.BlockName.TheVariants.{Local};
    ghost use Rattle.block_memory.specs.Block.{fresh, no_block};
    ghost use Rattle.block_memory.specs.Blocks.{put};
    ghost use Rattle.machine_memory.specs.Layouts.{AreIntegers};
    ghost use Rattle.machine_memory.specs.Memory.{blocks_of, frame_at, IsOpen, layout_at, layouts_of, Stands};
    ghost use Rattle.machine_memory.specs.Puts.{Clears};

    /// Makes a variable as it is when its declaration is reached, and takes no memory. It does so
    /// where the frame at this depth is live and has this layout, else all stays.
    #[inline]
    pub fn clear(&mut self, depth: u32, layout: u32, var: u32) -> bool
        ensures cleared { Clears result (blocks_of self.old) (blocks_of self.new) (Local depth var) (slice_index_or (map fresh (layout_at self.old layout).shapes) var no_block) }
        ensures stands { (d l : ℕ) → Stands self.old d l → Stands self.new d l }
        ensures done { Stands self.old depth layout → layout < length (layouts_of self.old) → result ≡ true }
        ensures layouts { layouts_of self.new ≡ layouts_of self.old }
    {
        if depth as usize >= self.live {
            return false;
        }
        let number = layout as usize;
        let frame = &self.frames[depth as usize];
        if frame.layout() != number || number >= self.layouts.len() {
            return false;
        }
        if frame.is_open() {
            self.clear_open(depth, number, var)
        } else {
            self.clear_closed(depth, number, var)
        }
    }

    // The same of a closed frame.
    #[inline]
    fn clear_closed(&mut self, depth: u32, number: usize, var: u32) -> bool
        requires stands { Stands self.old depth number }
        requires known { number < length (layouts_of self.old) }
        ensures cleared { Clears result (blocks_of self.old) (blocks_of self.new) (Local depth var) (slice_index_or (map fresh (layout_at self.old number).shapes) var no_block) }
        ensures stands { (d l : ℕ) → Stands self.old d l → Stands self.new d l }
        ensures done { result ≡ true }
        ensures layouts { layouts_of self.new ≡ layouts_of self.old }
    {
        match find_in(&self.layouts, number, var, 0) {
            Found::Integer(place) => {
                let count = self.layouts[number].count(var as usize);
                self.zero(depth, number, var, place.at as usize, count);
                true
            }
            Found::Pointer(at) => {
                self.set_pointer_in(depth, number, at, Flat::null());
                true
            }
            // It has no cells, so there is nothing to do.
            Found::Missing => true,
        }
    }

    // Makes all integers of a variable 0.
    #[inline]
    fn zero(&mut self, depth: u32, number: usize, var: u32, start: usize, count: usize)
        requires stands { Stands self.old depth number }
        requires place { AreIntegers (layout_at self.old number).shapes var start count }
        ensures cleared { blocks_of self.new ≡ put (blocks_of self.old) (Local depth var) (slice_index_or (map fresh (layout_at self.old number).shapes) var no_block) }
        ensures stands { (d l : ℕ) → Stands self.old d l → Stands self.new d l }
        ensures layouts { layouts_of self.new ≡ layouts_of self.old }
    {
        let _place = (number, var);
        self.frames[depth as usize].zero(start, count);
    }

    // The same of an open frame.
    fn clear_open(&mut self, depth: u32, number: usize, var: u32) -> bool
        requires open { IsOpen self.old depth }
        requires layout { (frame_at self.old depth).layout ≡ number }
        requires known { number < length (layouts_of self.old) }
        ensures cleared { Clears result (blocks_of self.old) (blocks_of self.new) (Local depth var) (slice_index_or (map fresh (layout_at self.old number).shapes) var no_block) }
        ensures stands { (d l : ℕ) → Stands self.old d l → Stands self.new d l }
        ensures layouts { layouts_of self.new ≡ layouts_of self.old }
    {
        let layout = &self.layouts[number];
        let count = layout.count(var as usize);
        let blank = layout.blank(var as usize);
        if self.frames[depth as usize].cells(var as usize).len() != count {
            return false;
        }
        self.frames[depth as usize].fill(var as usize, &blank);
        true
    }
}
