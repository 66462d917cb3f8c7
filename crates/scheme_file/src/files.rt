// A scheme file used where it lies: the bytes are lent, and what reading found stands beside them.
mod book;
mod lending;
mod opening;

use crate::reading::Found;

#[derive(Drop)]
pub struct SchemeFile<'a> {
    bytes: &'a mut [u8],
    found: Found,
}
