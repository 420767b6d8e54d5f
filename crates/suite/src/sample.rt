// Encoded documents that several tests lay out, in bytes as docs/format.md has them and not by the library's tags: the encoding itself is tested.
use std::alloc::{AllocError, Global};

// The call of docs/format.md: `let x = put( bread, slice( cheese, thin ), salt )`, a line, `in x`.
pub const CALL: &[u8; 116] = b"\x02\x01\x08let x = \x02\x05\x02\x01\x04put(\x02\x03\x02\
    \x02\x04\x02\x01\x05bread\x02\x01\x01,\x02\x04\x02\
    \x05\x02\x01\x06slice(\x02\x03\x02\
    \x02\x04\x02\x01\x06cheese\x02\x01\x01,\x02\x04\x02\x01\x04thin\x00\
    \x02\x04\x02\x01\x01)\x00\
    \x02\x01\x01,\x02\x04\x02\x01\x04salt\x00\
    \x02\x04\x02\x01\x01)\x00\
    \x02\x04\x02\x01\x04in x\x00";

// "aaaa", a group of a line and "b", and "cccc".
pub const BEHIND: &[u8; 20] = b"\x02\x01\x04aaaa\x02\x05\x02\x04\x01\x01b\x01\x04cccc";

// Groups around nothing, in one byte more than there are groups.
pub fn groups(heap: Global, count: usize) -> Result<Vec<u8>, AllocError> {
    let mut spelled = vec![in heap; 5u8; count]?;
    spelled.push(0)?;
    Ok(spelled)
}

// What stands in front, and behind it 512 lines nested by 255: their layout has 512 * 256 bytes.
pub fn lines_behind(heap: Global, front: &[u8]) -> Result<Vec<u8>, AllocError> {
    let mut spelled = front.to_vec(heap)?;
    spelled.extend_from_slice(b"\x03\xff")?;
    spelled.extend_from_slice(b"\x02\x04".repeat(heap, 511)?.as_slice())?;
    spelled.push(4)?;
    Ok(spelled)
}
