// A stream to read, with the decoding table of its codes: what every look rests on stands here once.
ghost use Rattle.std.specs.Prelude.{◌≤◌, ◌^◌, length};
ghost use Rattle.books.specs.Uses.{Decodes};

#[derive(Clone, Copy)]
pub struct CodedStream<'a> {
    pub bytes: &'a [u8],
    pub table: &'a [u16; 4096],
    ghost short: { length bytes.now ≤ 2 ^ 30 },
    ghost decodes: { Decodes 256 table.now },
}
