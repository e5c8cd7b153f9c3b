// A window to write: as many bytes as a sketch has rows, which is an even number.
ghost use Rattle.std.specs.Prelude.{◌≡◌, ◌%◌, ◌≤◌, length};

#[derive(Clone, Copy)]
pub struct Window<'a> {
    pub bytes: &'a [u8],
    ghost even: { length bytes.now % 2 ≡ 0 },
    ghost few: { length bytes.now ≤ 67108864 },
}
