ghost use Rattle.std.specs.Prelude.{◌+◌, ◌≤◌, length};

/// A place in a text of at most 1,048,576 bytes, where a physical line begins: what is left of the text, and the number
/// of that line, counted from 1.
#[derive(Clone, Copy, Drop)]
pub struct Place<'a> {
    pub rest: &'a [u8],
    pub number: u32,
    ghost within: { number + length rest.now ≤ 1048577 },
}
