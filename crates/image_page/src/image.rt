// The pages of a lent image: the part that is a page, and the store of a byte into one.
ghost use Rattle.std.specs.Prelude.{◌≡◌, set};
ghost use Rattle.image_page.specs.Page.{page_end, part_of, poke_of};

use super::Page;

// The end of the page at an offset, if it lies within `len` bytes.
fn page_end(len: usize, offset: usize) -> Option<usize>
    ensures { result ≡ page_end len offset }
{
    offset
        .checked_add(Page::SIZE as usize)
        .filter(|end| *end <= len)
}

// The page at an offset; the empty part where it does not lie within the image.
pub fn page_part(image: &[u8], offset: usize) -> &[u8]
    ensures { result.now ≡ part_of image.now offset }
{
    match page_end(image.len(), offset) {
        Some(end) => &image[offset..end],
        None => &image[..0],
    }
}

// A byte of a page is stored; nothing past its end.
pub fn store_byte(page: &mut [u8], at: usize, value: u8)
    ensures { page.new ≡ set page.old at value }
{
    // By index: after `get_mut` a proof knows the slice's length and none of its bytes.
    if at < page.len() {
        page[at] = value;
    }
}

// Byte `at` of the page at an offset is stored; the image stays as it is where it has no such byte.
pub fn poke(image: &mut [u8], offset: usize, at: usize, value: u8)
    ensures { image.new ≡ poke_of image.old offset at value }
{
    if let Some(end) = page_end(image.len(), offset) {
        store_byte(&mut image[offset..end], at, value);
    }
}
