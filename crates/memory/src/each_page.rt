// What runs once for a page of a page table: each loop over pages, and all that such a loop calls. Nothing here divides. A window's start is
// given (banks.rt finds it), and each page is a step from the one before it.
// Of the library only `len` is called, so that a search of this file shows it: loops store by an index, and conversions are `as`.
ghost use Rattle.std.specs.Prelude.{◌≡◌, ◌+◌, ◌*◌, ◌≤◌, ◌<◌, min, length};
ghost use Rattle.laws.specs.Table.{filled};
ghost use Rattle.image_page.specs.Page.{page_of};
ghost use Rattle.memory.specs.Walked.{next_page, walked_at, page_at, walked_entry, start_entry, nametable_in};

use super::Window;
use image_page::Page;

// The entry of the page at an offset: its thirty low bits, and the flag.
fn page(offset: u64, writable: bool) -> u32
    ensures { result ≡ page_of offset writable }
{
    let at = (offset & (Page::OFFSETS - 1)) as u32;
    if writable { at + Page::WRITABLE } else { at }
}

// The entry of the page `at` bytes into a window's region.
fn page_at(window: Window, at: u64) -> u32
    requires { at ≤ 0x80000000000 }
    ensures { result ≡ page_at window at }
{
    if window.len == 0 {
        Page::UNMAPPED
    } else {
        page((window.start & (Page::OFFSETS - 1)) + at, window.writable)
    }
}

// A page further on in a region of `len` bytes: at its end, back to its beginning.
fn next_page(len: u64, at: u64) -> u64
    requires { at ≤ 0x80000000000 }
    ensures { result ≡ next_page len at }
{
    let next = at + Page::SIZE;
    if len <= next { next - len } else { next }
}

// How far page i of a window lies in its region, found page by page.
fn walk(window: Window, i: u32) -> u64
    ensures { (result ≡ walked_at window i) × (result ≤ 0x80000000000) }
{
    let mut at = window.base as u64;
    for _k in 0..i {
        at = next_page(window.len, at);
    }
    at
}

impl Window {
    // Returns the entry of the window's page i. Past the region's end it is walked to.
    pub fn entry(self, i: u32) -> u32
        ensures { result ≡ walked_entry self i }
    {
        let straight = self.base as u64 + i as u64 * Page::SIZE;
        if straight < self.len {
            page_at(self, straight)
        } else {
            page_at(self, walk(self, i))
        }
    }
}

// Maps the pages of a window that lies whole in its region. No page is past the region's end, so none waits for the comparison that
// `map_around` makes.
fn map_straight(slots: &mut [u32], window: Window)
    requires few { length slots.old < 0x100000000 }
    requires inside { window.base + length slots.old * 1024 ≤ window.len }
    ensures { slots.new ≡ filled slots.old 0 (walked_entry window) (length slots.old) }
{
    let mut at = window.base as u64;
    for i in 0..slots.len() {
        slots[i] = page_at(window, at);
        at += Page::SIZE;
    }
}

// Maps the pages of a window that may be larger than its region. Not one loop with `map_straight` over the step: its contract would have
// to except the step past the last slot, where the straight one leaves the region.
fn map_around(slots: &mut [u32], window: Window)
    requires { length slots.old < 0x100000000 }
    ensures { slots.new ≡ filled slots.old 0 (walked_entry window) (length slots.old) }
{
    let mut at = window.base as u64;
    for i in 0..slots.len() {
        slots[i] = page_at(window, at);
        at = next_page(window.len, at);
    }
}

// Maps a page for each start in a window's region.
fn map_each(slots: &mut [u32], starts: &[u32], window: Window)
    requires { length slots.old ≤ length starts.now }
    ensures { slots.new ≡ filled slots.old 0 (start_entry window starts.now) (length slots.old) }
{
    for i in 0..slots.len() {
        slots[i] = page_at(window, starts[i] as u64);
    }
}

// The smaller of two numbers.
fn smaller(a: usize, b: usize) -> usize
    ensures { result ≡ min a b }
{
    if a < b { a } else { b }
}

// Maps the pages of a window to the slots from `slot` on. A page past the table is left out.
pub fn map_pages(pages: &mut [u32], slot: usize, count: u32, window: Window)
    ensures { pages.new ≡ filled pages.old slot (walked_entry window) count }
{
    let first = smaller(slot, pages.len());
    let end = first + smaller(count as usize, pages.len() - first);
    let slots = &mut pages[first..end];
    let last = window.base as u64 + count as u64 * Page::SIZE;
    if last <= window.len {
        map_straight(slots, window);
    } else {
        map_around(slots, window);
    }
}

// Maps a page for each start in a window's region to the slots from `slot` on. A page past the table is left out.
pub fn map_starts(pages: &mut [u32], slot: usize, starts: &[u32], window: Window)
    ensures { pages.new ≡ filled pages.old slot (start_entry window starts.now) (length starts.now) }
{
    let first = smaller(slot, pages.len());
    let end = first + smaller(starts.len(), pages.len() - first);
    map_each(&mut pages[first..end], starts, window);
}

// Makes 0x3000 to 0x3FFF show what 0x2000 to 0x2FFF does. A page past the table is left out.
pub fn repeat_nametables(pages: &mut [u32])
    ensures { pages.new ≡ filled pages.old 12 (nametable_in pages.old) 4 }
{
    for i in 0..4 {
        if 12 + i < pages.len() {
            pages[12 + i] = pages[8 + i];
        }
    }
}
